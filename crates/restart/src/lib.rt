// Frame 15: tables and wire are built beside the store; then, if both fit, the store is changed.
#![tactic(auto)]

mod back;
mod resend;
mod table;

ghost use Rattle.std.specs.Prelude.{◌≡◌, ◌≤◌};
ghost use Rattle.lists.specs.Questions.{first_no};
ghost use Rattle.protocol.specs.Numbers.{refusal_of, answered};
ghost use Rattle.protocol.specs.Restart.{restart};
ghost use Rattle.protocol.specs.Questions.{restart_questions};
ghost use Rattle.packets.specs.Words.{packets};
ghost use Rattle.store.specs.View.{view, tried, Framed};
ghost use Rattle.restart.specs.Judged.{asked};
ghost use Rattle.restart.specs.Whole.{back};

use back::{all_back, tables};
use head::STATUS;
use memory::ROW;
use protocol::{Refusal, Rule, Status};
use resend::resend_all;
use store::{PACKETS, STORE, WIRE};

// The questions 2 to 5.
fn judge(s: &[u64; STORE], p: u8) -> Result<(), Refusal>
    ensures { refusal_of result ≡ first_no (asked (view s.now) p) }
{
    let is_down = head::status(s, p) == Status::Down;
    head::first_no(
        head::is_set(s),
        head::is_machine(s, p),
        head::is_lost(s),
        is_down,
    )
}

// Machine p is catching up, with the tables and the wire that were built.
fn change(s: &mut [u64; STORE], p: u8, rows: &[[u64; ROW]; 13], wire: &[u64; PACKETS])
    requires { (1 ≤ p) × (p ≤ 6) }
    ensures { view s.new ≡ back (view s.old) p rows.now (packets wire.now) }
{
    s[STATUS + p as usize] = 2;
    all_back(s, p, rows);
    s[WIRE..].copy_from_slice(wire);
}

// Frame 15.
// Kept out of the loop over lines: a call of the reader would compute the places of all memories first, however short its piece.
#[inline(never)]
pub fn restart(s: &mut [u64; STORE], p: u8) -> Result<Rule, Refusal>
    ensures { Framed s.old s.new (answered result) (tried (view s.old) (restart_questions (view s.old) p) (restart (view s.old) p)) }
{
    judge(s, p)?;
    let mut rows = [[0; ROW]; 13];
    tables(s, p, &mut rows).map_err(|_| Refusal::TableFull)?;
    let mut wire = [0; PACKETS];
    wire.copy_from_slice(&s[WIRE..]);
    packets::after_restart(&mut wire, s, p);
    resend_all(s, p, &mut wire).map_err(|_| Refusal::WireFull)?;
    change(s, p, &rows, &wire);
    Ok(Rule::Other)
}

// Frame 17: the desk takes its last message to a chare back, as long as no ticket is given for it.
#![tactic(auto)]

ghost use Rattle.std.specs.Prelude.{◌≡◌, ◌<◌, length};
ghost use Rattle.lists.specs.Lists.{find};
ghost use Rattle.lists.specs.Questions.{first_no};
ghost use Rattle.protocol.specs.Tickets.{entry};
ghost use Rattle.protocol.specs.Packets.{lookup, is_named};
ghost use Rattle.protocol.specs.Withdraw.{without_tn, desk_without, take_back, withdraw};
ghost use Rattle.protocol.specs.Questions.{no_entry, is_there, can_be_taken_back, withdraw_questions};
ghost use Rattle.protocol.specs.Numbers.{refusal_of, answered};
ghost use Rattle.packets.specs.Words.{packets};
ghost use Rattle.memory.specs.Places.{MEMORY};
ghost use Rattle.memory.specs.View.{memory_view};
ghost use Rattle.store.specs.View.{view, tried, Framed};

use memory::{LOG, MEMORY, SN, TABLE};
use packets::Name;
use protocol::{Kind, Lookup, Refusal, Rule};
use store::{LIVE, STORE, WIRE, last_sn};

// The log of a memory has the message n to c, without a TN.
#[tactic(auto, unfolding(protocol::specs::Withdraw::without_tn), using(memory::specs::View::log_part))]
fn is_unticketed(m: &[u64], c: u8, n: u16) -> bool
    requires { length m.now ≡ MEMORY }
    ensures { result ≡ without_tn (lookup (memory_view m.now).log c n) }
{
    matches!(logs::lookup(&m[LOG..MEMORY], c, n), Lookup::Unticketed(_))
}

// The ASK for the desk's message n to c is on the wire.
fn is_asked(ws: &[u64], c: u8, n: u16) -> bool
    ensures { result ≡ is_there (find (is_named 1 0 c n) (packets ws.now)) }
{
    let ask = Name {
        kind: Kind::Ask.number(),
        sender: 0,
        receiver: c,
        sn: n,
    };
    packets::find(ws, ask).is_some()
}

// The table of a memory has no ticket for the desk's message n.
fn has_no_ticket(m: &[u64], n: u16) -> bool
    requires { length m.now ≡ MEMORY }
    ensures { result ≡ no_entry (entry (memory_view m.now).table 0 n) }
{
    tickets::find(&m[TABLE..LOG], 0, n).is_none()
}

// Question 12.
#[tactic(auto, using(crate::specs::Judged::question_12, store::specs::ViewLaws::span))]
fn can_be_taken_back(s: &[u64; STORE], c: u8, n: u16) -> bool
    requires { c < 13 }
    ensures { result ≡ can_be_taken_back (view s.now) c n }
{
    let a = LIVE + (c as usize) * MEMORY;
    is_unticketed(&s[LIVE..LIVE + MEMORY], c, n)
        && is_asked(&s[WIRE..], c, n)
        && has_no_ticket(&s[a..a + MEMORY], n)
}

// The questions: the first "no".
fn judge(s: &[u64; STORE], c: u8) -> Result<(), Refusal>
    ensures { refusal_of result ≡ first_no (withdraw_questions (view s.now) c) }
{
    head::judge_chare(s, c)?;
    let n = last_sn(s, 0, c);
    if can_be_taken_back(s, c, n) {
        Ok(())
    } else {
        Err(Refusal::TooLate)
    }
}

// The memory of the desk: its message n to c leaves the log, and the SN is free again.
fn forget(m: &mut [u64], c: u8, n: u16)
    requires m_len { length m.old ≡ MEMORY }
    requires c_bound { c < 13 }
    ensures { memory_view m.new ≡ desk_without (memory_view m.old) c n }
{
    m[SN + c as usize] = n.saturating_sub(1) as u64;
    logs::remove(&mut m[LOG..MEMORY], c, n);
}

// The desk's message n to c is taken back, with its ASK.
fn take_back(s: &mut [u64; STORE], c: u8, n: u16)
    requires { c < 13 }
    ensures { view s.new ≡ take_back (view s.old) c n }
{
    forget(&mut s[LIVE..LIVE + MEMORY], c, n);
    packets::leave_all(&mut s[WIRE..], Kind::Ask.number(), 0, c, n);
}

pub fn withdraw(s: &mut [u64; STORE], chare: u8) -> Result<Rule, Refusal>
    ensures { Framed s.old s.new (answered result) (tried (view s.old) (withdraw_questions (view s.old) chare) (withdraw (view s.old) chare)) }
{
    judge(s, chare)?;
    let n = last_sn(s, 0, chare);
    take_back(s, chare, n);
    Ok(Rule::Other)
}

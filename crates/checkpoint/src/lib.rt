// Frame 13: a checkpoint of a machine. Its tables are pruned, its buddy gets a new copy, and the logs drop what the copy covers.
#![tactic(auto)]

ghost use Rattle.std.specs.Prelude.{◌≡◌, ◌<◌, length};
ghost use Rattle.lists.specs.Questions.{first_no};
ghost use Rattle.arrays.specs.ArrayMap.{as_map};
ghost use Rattle.protocol.specs.Checkpoint.{pruned, checkpoint};
ghost use Rattle.protocol.specs.Numbers.{refusal_of, answered};
ghost use Rattle.protocol.specs.Questions.{checkpoint_questions};
ghost use Rattle.logs.specs.CleanUp.{heights_on};
ghost use Rattle.memory.specs.Places.{MEMORY};
ghost use Rattle.memory.specs.View.{memory_view};
ghost use Rattle.store.specs.View.{view, tried, Framed};
ghost use Rattle.checkpoint.specs.Parts.{fixed, holding, cleaned, clean_up};

use head::HELD;
use memory::{LOG, MEMORY, TABLE};
use protocol::{Refusal, Rule};
use store::{COPY, LIVE, NOTELIST, NOTES, STORE};

// The table of a memory keeps what is above the height, all noted.
fn prune(m: &mut [u64])
    requires { length m.old ≡ MEMORY }
    ensures { memory_view m.new ≡ pruned (memory_view m.old) }
{
    let h = memory::height(m);
    tickets::prune(&mut m[TABLE..LOG], h);
}

// The chares on machine p, pruned, become its copy.
fn fix(s: &mut [u64; STORE], p: u8)
    ensures { view s.new ≡ fixed (view s.old) p }
{
    for c in 0..13 {
        if head::on(s, p, c) {
            let a = LIVE + (c as usize) * MEMORY;
            prune(&mut s[a..a + MEMORY]);
            words::copy(s, a, COPY + (c as usize) * MEMORY, MEMORY);
        }
    }
}

// The buddy holds p's copy, and no notes.
fn hold(s: &mut [u64; STORE], p: u8)
    requires { p < 7 }
    ensures { view s.new ≡ holding (view s.old) p }
{
    let q = p as usize;
    s[HELD + q] = 1;
    let a = NOTES + q * NOTELIST;
    notelist::empty(&mut s[a..a + NOTELIST]);
}

// Below which TN a log drops messages to a chare: the height of those on machine p, else 0.
fn limits(s: &[u64; STORE], p: u8) -> [u16; 13]
    ensures { as_map 0 result ≡ heights_on (view s.now) p }
{
    let mut r = [0; 13];
    for c in 0..13 {
        if head::on(s, p, c) {
            let i = c as usize;
            let a = LIVE + i * MEMORY;
            r[i] = memory::height(&s[a..a + MEMORY]);
        }
    }
    r
}

// The log of a memory drops what lies below the limits.
fn clean_log(m: &mut [u64], limits: &[u16])
    requires { length m.old ≡ MEMORY }
    ensures { memory_view m.new ≡ cleaned (as_map 0 limits.now) (memory_view m.old) }
{
    logs::clean(&mut m[LOG..MEMORY], limits);
}

// Every log at the desk or on a machine that is up does so.
fn clean(s: &mut [u64; STORE], limits: &[u16])
    ensures { view s.new ≡ clean_up (as_map 0 limits.now) (view s.old) }
{
    for c in 0..13 {
        let h = head::home(s, c);
        if head::is_up(s, h) {
            let a = LIVE + (c as usize) * MEMORY;
            clean_log(&mut s[a..a + MEMORY], limits);
        }
    }
}

// The questions: the first that is answered "no".
fn judge(s: &[u64; STORE], p: u8) -> Result<(), Refusal>
    ensures { refusal_of result ≡ first_no (checkpoint_questions (view s.now) p) }
{
    let b = head::buddy(s, p);
    head::first_no(
        head::is_set(s),
        head::is_machine(s, p),
        head::is_lost(s),
        head::is_up(s, p) && head::is_up(s, b),
    )
}

// Kept out of the loop over lines: a call of the reader would compute the places of all memories first, however short its piece.
#[inline(never)]
pub fn checkpoint(s: &mut [u64; STORE], p: u8) -> Result<Rule, Refusal>
    ensures { Framed s.old s.new (answered result) (tried (view s.old) (checkpoint_questions (view s.old) p) (checkpoint (view s.old) p)) }
{
    judge(s, p)?;
    fix(s, p);
    hold(s, p);
    let l = limits(s, p);
    clean(s, &l);
    Ok(Rule::Other)
}

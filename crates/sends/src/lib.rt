// Frames 10 and 12 in place. 12: the message is worked where the store stands, then the sends are judged by reading only, and made;
// or the five words that the work changed are written back. 10: one send, from the desk.
#![tactic(auto)]

pub mod entry;
pub mod message;
pub mod plan;
pub mod ticket;
pub mod verdict;

ghost use Rattle.std.specs.Prelude.{◌≡◌, [], ◌∷◌, ◌-◌, ◌<◌, ◌≤◌, length};
ghost use Rattle.std.proofs.Math.Option.{some};
ghost use Rattle.lists.specs.Questions.{first_no};
ghost use Rattle.lists.specs.Options.{maybe};
ghost use Rattle.protocol.specs.Numbers.{refusal_of, answered};
ghost use Rattle.protocol.specs.Questions.{inject_questions, work_questions};
ghost use Rattle.protocol.specs.Sending.{send};
ghost use Rattle.protocol.specs.Work.{ports, receivers};
ghost use Rattle.protocol.specs.Working.{next_entry};
ghost use Rattle.memory.specs.Places.{MEMORY};
ghost use Rattle.memory.specs.View.{memory_view};
ghost use Rattle.store.specs.View.{view, tried, Framed};
ghost use Rattle.sends.specs.Inject.{desk_questions};
ghost use Rattle.sends.specs.Made.{Made};
ghost use Rattle.sends.specs.Stored.{to_sent};
ghost use Rattle.sends.specs.Ticket.{message_after};
ghost use Rattle.sends.specs.Works.{tried_work, worked_state};

use entry::work_entry;
use memory::{LOG, MEMORY, TABLE};
use message::{log_message, message_after, put};
use plan::{plan_after, plan_of};
use protocol::{Entry, Refusal, Rule};
use store::{LIVE, STORE, WIRE, last_sn};
use ticket::{Ticket, take_ticket};
use verdict::{one_verdict, two_verdict};

// How many messages a log has.
fn log_count(m: &[u64]) -> u8
    requires { length m.now ≡ MEMORY }
    ensures is { result ≡ length (memory_view m.now).log }
    ensures within { result ≤ 16 }
{
    logs::count(&m[LOG..MEMORY]) as u8
}

// How many messages a chare's log has.
fn logged(s: &[u64; STORE], a: u8) -> u8
    requires { a < 13 }
    ensures is { result ≡ length ((view s.now).live a).log }
    ensures within { result ≤ 16 }
{
    let x = LIVE + (a as usize) * MEMORY;
    log_count(&s[x..x + MEMORY])
}

// How many packets are on the wire.
fn waiting(s: &[u64; STORE]) -> u8
    ensures is { result ≡ length (view s.now).wire }
    ensures within { result ≤ 128 }
{
    packets::count(&s[WIRE..STORE]) as u8
}

// The next message of a to b is sent, with the ticket k; what is full stays.
fn send(s: &mut [u64; STORE], a: u8, b: u8, value: u16, hops: u8, k: Ticket)
    requires { (a < 13) × (b < 13) × (hops < 8) }
    ensures { view s.new ≡ to_sent (view s.old) (message_after a b (((view s.old).live a).sn b) value hops) k }
{
    let m = message_after(a, b, last_sn(s, a, b), value, hops);
    let y = LIVE + (b as usize) * MEMORY;
    take_ticket(&mut s[y..y + MEMORY], m, k);
    let x = LIVE + (a as usize) * MEMORY;
    log_message(&mut s[x..x + MEMORY], m, k.tn());
    put(&mut s[WIRE..STORE], m, k);
}

fn send_one(s: &mut [u64; STORE], a: u8, b: u8, value: u16, hops: u8) -> Result<(), Refusal>
    requires { (a < 13) × (b < 13) × (hops < 8) }
    ensures { Made s.old s.new a (b ∷ []) value hops (refusal_of result) }
{
    let p = plan_of(s, a, b);
    one_verdict(p, logged(s, a), waiting(s))?;
    send(s, a, b, value, hops, p.ticket);
    Ok(())
}

fn send_two(s: &mut [u64; STORE], a: u8, b: u8, d: u8, value: u16, hops: u8) -> Result<(), Refusal>
    requires { (a < 13) × (b < 13) × (d < 13) × (hops < 8) }
    ensures { Made s.old s.new a (b ∷ d ∷ []) value hops (refusal_of result) }
{
    let p = plan_of(s, a, b);
    let q = plan_after(s, a, b, p.ticket, d);
    two_verdict(p, q, logged(s, a), waiting(s))?;
    send(s, a, b, value, hops, p.ticket);
    send(s, a, d, value, hops, q.ticket);
    Ok(())
}

// A message to each port of the chare, if hops is above 0; or the first question answered "no", and then nothing changes.
fn send_all(s: &mut [u64; STORE], c: u8, value: u16, hops: u8) -> Result<(), Refusal>
    requires { (c < 13) × (hops < 8) }
    ensures { Made s.old s.new c (receivers (ports (view s.old).job) c hops) value (hops - 1) (refusal_of result) }
{
    if hops == 0 {
        return Ok(());
    }
    match (head::first(s, c), head::second(s, c)) {
        (0, 0) => Ok(()),
        (b, 0) | (0, b) => send_one(s, c, b, value, hops - 1),
        (b, d) => send_two(s, c, b, d, value, hops - 1),
    }
}

// The entry is worked, and what follows is sent; if that is refused, the five words are written back.
fn work_at(s: &mut [u64; STORE], c: u8, e: Entry) -> Result<Rule, Refusal>
    requires { (c < 13) × (e.sender < 16) × (e.hops < 8) }
    ensures { Framed s.old s.new (answered result) (tried_work (view s.old) c (some e)) }
{
    let a = LIVE + (c as usize) * MEMORY;
    let z = a + MEMORY;
    let old = memory::take(&s[a..z], e.sender);
    let new = work_entry(old, e)?;
    memory::give(&mut s[a..z], e.sender, new);
    let value = (new.state % 65536) as u16;
    match send_all(s, c, value, e.hops) {
        Ok(()) => Ok(Rule::Other),
        Err(no) => {
            memory::give(&mut s[a..z], e.sender, old);
            Err(no)
        }
    }
}

// The entry of the TN after the height.
fn next_entry(m: &[u64]) -> Option<Entry>
    requires { length m.now ≡ MEMORY }
    ensures { maybe result ≡ next_entry (memory_view m.now) }
{
    let tn = memory::height(m).checked_add(1)?;
    tickets::find_tn(&m[TABLE..LOG], tn)
}

// Frame 12.
pub fn work(s: &mut [u64; STORE], chare: u8) -> Result<Rule, Refusal>
    ensures { Framed s.old s.new (answered result) (tried (view s.old) (work_questions (view s.old) chare) (worked_state (view s.old) chare (next_entry ((view s.old).live chare)))) }
{
    head::judge_chare(s, chare)?;
    let a = LIVE + (chare as usize) * MEMORY;
    let e = next_entry(&s[a..a + MEMORY]).ok_or(Refusal::Missing)?;
    work_at(s, chare, e)
}

// The questions 2 to 4 of an inject: the first that is answered "no". 5 and 6 are not put.
fn judge_inject(s: &[u64; STORE], chare: u8, hops: u8) -> Result<(), Refusal>
    ensures { refusal_of result ≡ first_no (desk_questions (view s.now) chare hops) }
{
    let in_range = head::is_chare(s, chare) && hops <= 7;
    head::first_no(head::is_set(s), in_range, head::is_lost(s), true)
}

// Frame 10: the desk sends.
pub fn inject(s: &mut [u64; STORE], chare: u8, value: u16, hops: u8) -> Result<Rule, Refusal>
    ensures { Framed s.old s.new (answered result) (tried (view s.old) (inject_questions (view s.old) chare value hops) (send (view s.old) 0 chare value hops)) }
{
    judge_inject(s, chare, hops)?;
    send_one(s, 0, chare, value, hops)?;
    Ok(Rule::Other)
}

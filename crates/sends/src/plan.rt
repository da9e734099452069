// Plans of sends, before any is made.
ghost use Rattle.std.specs.Prelude.{◌≡◌, ◌+◌, ◌<◌, length};
ghost use Rattle.protocol.specs.Tickets.{next_tn};
ghost use Rattle.protocol.specs.Packets.{seen};
ghost use Rattle.memory.specs.Places.{MEMORY};
ghost use Rattle.memory.specs.View.{memory_view};
ghost use Rattle.store.specs.View.{view};
ghost use Rattle.sends.specs.Plan.{idle, new_plan, plan_for, plan_of, plan_after, last_after, base_after, extra_after};

use crate::message::sn_next;
use crate::ticket::Ticket;
use memory::{LOG, MEMORY, TABLE};
use store::{LIVE, STORE, last_sn};

// What a send needs to know before it is made: its ticket, whether the window admits it and whether the table has room for it.
#[derive(Clone, Copy)]
pub struct Plan {
    pub ticket: Ticket,
    pub admits: bool,
    pub room: bool,
}

// No new ticket.
fn idle(ticket: Ticket) -> Plan
    ensures { result ≡ idle ticket }
{
    Plan {
        ticket,
        admits: true,
        room: true,
    }
}

// A new ticket for the SN n of the sender a, with a TN above `base`; `extra` entries come before.
fn new_plan(y: &[u64], a: u8, n: u16, base: u16, extra: u8) -> Plan
    requires y_len { length y.now ≡ MEMORY }
    requires extra_bound { extra < 2 }
    ensures { result ≡ new_plan (next_tn base (memory_view y.now).highest_at_restart (memory_view y.now).table) (length (memory_view y.now).table + extra) (seen (memory_view y.now) a n) }
{
    let top = memory::top(y);
    let tn = tickets::next_tn(&y[TABLE..LOG], base, top);
    if 60000 < tn {
        return idle(Ticket::TooHigh);
    }
    let seen = memory::seen(y, a, n);
    let count = tickets::count(&y[TABLE..LOG]);
    Plan {
        ticket: Ticket::New(tn as u16),
        admits: window::admitted(seen),
        room: count + (extra as usize) < 16,
    }
}

// A second message, after a first one to the same receiver or to another: the last SN.
fn last_after(same: bool, n: u16, m: u16) -> u16
    ensures { result ≡ last_after same n m }
{
    if same { sn_next(n) } else { m }
}

// The TN that new ones lie above.
fn base_after(same: bool, k: Ticket, height: u16) -> u16
    ensures { result ≡ base_after same k height }
{
    match k {
        Ticket::New(n) if same => n,
        _ => height,
    }
}

// The entries that come before.
fn extra_after(same: bool, k: Ticket) -> u8
    ensures { result ≡ extra_after same k }
{
    match k {
        Ticket::New(_) if same => 1,
        _ => 0,
    }
}

// The sender a's next message, `last` being its last SN, to a receiver with the memory y, on the same machine or not; after one to the same
// receiver, or not, with the ticket k.
fn plan_on(near: bool, y: &[u64], a: u8, last: u16, same: bool, k: Ticket) -> Plan
    requires { length y.now ≡ MEMORY }
    ensures { result ≡ plan_for near (memory_view y.now).table (memory_view y.now).highest_at_restart (seen (memory_view y.now) a) a last (base_after same k (memory_view y.now).height) (extra_after same k) }
{
    if 60000 <= last {
        return idle(Ticket::TooHigh);
    }
    if !near {
        return idle(Ticket::Remote);
    }
    match tickets::find(&y[TABLE..LOG], a, last + 1) {
        Some(e) => idle(Ticket::Found(e.tn)),
        None => {
            let base = base_after(same, k, memory::height(y));
            new_plan(y, a, last + 1, base, extra_after(same, k))
        }
    }
}

// The plan of a send from a to b.
pub fn plan_of(s: &[u64; STORE], a: u8, b: u8) -> Plan
    requires { (a < 13) × (b < 13) }
    ensures { result ≡ plan_of (view s.now) a b }
{
    let near = head::is_local(s, a, b);
    let last = last_sn(s, a, b);
    let y = LIVE + (b as usize) * MEMORY;
    plan_on(near, &s[y..y + MEMORY], a, last, false, Ticket::Remote)
}

// The plan of a second send, to d, as if that to b with the ticket k were made.
pub fn plan_after(s: &[u64; STORE], a: u8, b: u8, k: Ticket, d: u8) -> Plan
    requires { (a < 13) × (b < 13) × (d < 13) }
    ensures { result ≡ plan_after (view s.now) a b k d }
{
    let near = head::is_local(s, a, d);
    let same = d == b;
    let last = last_after(same, last_sn(s, a, b), last_sn(s, a, d));
    let z = LIVE + (d as usize) * MEMORY;
    plan_on(near, &s[z..z + MEMORY], a, last, same, k)
}

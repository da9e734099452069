// How a message that is sent gets its ticket, and what it leaves of the receiver's memory, in place.
ghost use Rattle.std.specs.Prelude.{◌≡◌, ◌<◌, length};
ghost use Rattle.protocol.specs.Setters.{with_table};
ghost use Rattle.memory.specs.Places.{MEMORY};
ghost use Rattle.memory.specs.View.{memory_view};
ghost use Rattle.sends.specs.Ticket.{fits, growth, tn_of, to_table};

use memory::{LOG, TABLE};
use protocol::{Entry, Message};

// How a message to be sent gets its ticket: later, from another machine; by an entry that is there; anew. Or an SN or TN passes 60,000.
#[derive(Clone, Copy)]
pub enum Ticket {
    Remote,
    Found(u16),
    New(u16),
    TooHigh,
}

impl Ticket {
    pub fn fits(self) -> bool
        ensures { result ≡ fits self }
    {
        !matches!(self, Ticket::TooHigh)
    }

    // How many packets go to the wire.
    pub fn growth(self) -> u8
        ensures { result ≡ growth self }
    {
        match self {
            Ticket::Remote | Ticket::New(_) => 1,
            Ticket::Found(_) | Ticket::TooHigh => 0,
        }
    }

    // The TN that the log keeps; 0 is none yet.
    pub fn tn(self) -> u16
        ensures { result ≡ tn_of self }
    {
        match self {
            Ticket::Found(n) | Ticket::New(n) => n,
            Ticket::Remote | Ticket::TooHigh => 0,
        }
    }
}

// The receiver's memory.
pub fn take_ticket(y: &mut [u64], m: Message, k: Ticket)
    requires y_len { length y.old ≡ MEMORY }
    requires sender_bound { (m.sender < 13) × (m.hops < 8) }
    ensures { memory_view y.new ≡ with_table (memory_view y.old) (to_table (memory_view y.old).table m k) }
{
    match k {
        Ticket::Found(_) => tickets::fill(&mut y[TABLE..LOG], m.sender, m.sn, m.value, m.hops),
        Ticket::New(tn) => {
            let e = Entry {
                sender: m.sender,
                sn: m.sn,
                tn,
                received: true,
                noted: false,
                value: m.value,
                hops: m.hops,
            };
            tickets::push(&mut y[TABLE..LOG], e);
        }
        Ticket::Remote | Ticket::TooHigh => {}
    }
}

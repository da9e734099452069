// A sender's next message, and what it leaves of the sender's memory and the wire, in place.
ghost use Rattle.std.specs.Prelude.{◌≡◌, ◌<◌, length};
ghost use Rattle.protocol.specs.Sending.{about};
ghost use Rattle.words.specs.Becomes.{Becomes};
ghost use Rattle.item.specs.Item.{items};
ghost use Rattle.packets.specs.Words.{packets};
ghost use Rattle.memory.specs.Places.{MEMORY};
ghost use Rattle.memory.specs.View.{memory_view};
ghost use Rattle.store.specs.Places.{PACKETS};
ghost use Rattle.sends.specs.Ticket.{to_wire, to_words, sn_next, message_after, to_log};

use crate::ticket::Ticket;
use memory::{LOG, MEMORY, SN};
use protocol::{Content, Logged, Message, Packet};

// The SN after the last one; from 60,000 on, which words can hold, the last one stays, and `min` would not say so.
pub fn sn_next(last: u16) -> u16
    ensures { result ≡ sn_next last }
{
    if last < 60000 { last + 1 } else { last }
}

// The message after the SN `last`.
pub fn message_after(sender: u8, receiver: u8, last: u16, value: u16, hops: u8) -> Message
    ensures { result ≡ message_after sender receiver last value hops }
{
    Message {
        sender,
        receiver,
        sn: sn_next(last),
        value,
        hops,
    }
}

// The sender's memory.
pub fn log_message(x: &mut [u64], m: Message, tn: u16)
    requires x_len { length x.old ≡ MEMORY }
    requires sender_bound { (m.sender < 13) × (m.receiver < 13) × (m.hops < 8) }
    ensures { memory_view x.new ≡ to_log (memory_view x.old) m tn }
{
    x[SN + m.receiver as usize] = m.sn as u64;
    logs::push(&mut x[LOG..MEMORY], Logged { message: m, tn });
}

fn about(m: Message, content: Content) -> Packet
    ensures { result ≡ about m content }
{
    Packet {
        sender: m.sender,
        receiver: m.receiver,
        sn: m.sn,
        content,
    }
}

// Puts what a send gives on the wire.
pub fn put(ws: &mut [u64], m: Message, k: Ticket)
    requires ws_len { length ws.old ≡ PACKETS }
    requires sender_bound { (m.sender < 13) × (m.receiver < 13) }
    ensures row { Becomes packets ws.old ws.new (to_wire (packets ws.old) m k) }
    ensures words { items ws.new ≡ to_words (items ws.old) m k }
{
    match k {
        Ticket::Remote => packets::join(ws, about(m, Content::Ask)),
        Ticket::New(n) => packets::join(ws, about(m, Content::Note(n))),
        Ticket::Found(_) | Ticket::TooHigh => {}
    }
}

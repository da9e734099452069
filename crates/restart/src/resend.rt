// What the logs send again when machine p is back, by sender, receiver and SN.
ghost use Rattle.std.specs.Prelude.{◌≡◌, [], ◌∷◌, ◌<◌, ◌≤◌, length, is_ok};
ghost use Rattle.lists.specs.Lists.{gather, sort};
ghost use Rattle.protocol.specs.Parts.{every_sender};
ghost use Rattle.protocol.specs.Sending.{about};
ghost use Rattle.protocol.specs.Restart.{from_here, log_order};
ghost use Rattle.logs.specs.Log.{entries as messages};
ghost use Rattle.item.specs.Item.{items};
ghost use Rattle.packets.specs.Words.{fitted, packets};
ghost use Rattle.memory.specs.Places.{ROW};
ghost use Rattle.store.specs.View.{view};
ghost use Rattle.restart.specs.Limited.{held};
ghost use Rattle.restart.specs.Resends.{packets_of, elsewhere, again, all_again};
ghost use Rattle.restart.specs.Sent.{putting, putting_words};

use memory::{LOG, MEMORY, ROW};
use protocol::{Content, Logged, Message, Packet};
use store::{COPY, LIVE, PACKETS, STORE};
use words::Full;

// A message from elsewhere to p: as ASK without a TN, as DATA above the height.
fn from_elsewhere(x: Logged, h: u16) -> Option<Content>
    ensures { packets_of x.message result ≡ elsewhere h x }
{
    if x.tn == 0 {
        return Some(Content::Ask);
    }
    if x.tn <= h {
        return None;
    }
    let Message { value, hops, .. } = x.message;
    Some(Content::Data { value, hops })
}

// A message from p to another machine: as ASK without a TN.
fn from_here(x: Logged) -> Option<Content>
    ensures { packets_of x.message result ≡ from_here x }
{
    (x.tn == 0).then_some(Content::Ask)
}

// The height of a chare on machine p once it is back.
fn height_back(s: &[u64; STORE], c: u8) -> u16
    requires { c < 13 }
    ensures { result ≡ ((view s.now).copy c).height }
{
    let a = COPY + (c as usize) * MEMORY;
    memory::height(&s[a..a + MEMORY])
}

// `here`: the sender is on p.
fn resend(s: &[u64; STORE], p: u8, here: bool, x: Logged) -> Option<Content>
    requires { 1 ≤ p }
    ensures { packets_of x.message result ≡ again (view s.now) p here x }
{
    let receiver = x.message.receiver;
    match (here, head::on(s, p, receiver)) {
        (true, true) => None,
        (true, false) => from_here(x),
        (false, true) => from_elsewhere(x, height_back(s, receiver)),
        (false, false) => None,
    }
}

// One more packet, where there is room.
fn put(wire: &mut [u64; PACKETS], m: Message, content: Content) -> Result<(), Full>
    ensures row { held (is_ok result) (packets wire.new) ≡ putting (packets wire.old) (fitted (about m content) ∷ []) }
    ensures words { held (is_ok result) (items wire.new) ≡ putting_words (items wire.old) (about m content ∷ []) }
{
    if PACKETS - 1 <= packets::count(wire) {
        return Err(Full);
    }
    packets::join(
        wire,
        Packet {
            sender: m.sender,
            receiver: m.receiver,
            sn: m.sn,
            content,
        },
    );
    Ok(())
}

// A log, in its order.
fn resend_log(
    s: &[u64; STORE],
    p: u8,
    here: bool,
    l: &[u64],
    wire: &mut [u64; PACKETS],
) -> Result<(), Full>
    requires { 1 ≤ p }
    ensures row { held (is_ok result) (packets wire.new) ≡ putting (packets wire.old) (gather (again (view s.now) p here) (messages l.now)) }
    ensures words { held (is_ok result) (items wire.new) ≡ putting_words (items wire.old) (gather (again (view s.now) p here) (messages l.now)) }
{
    for &w in words::items(l) {
        let x = logs::unpack(w);
        if let Some(content) = resend(s, p, here, x) {
            put(wire, x.message, content)?;
        }
    }
    Ok(())
}

// A log by receiver and SN.
fn resend_sorted(
    s: &[u64; STORE],
    p: u8,
    here: bool,
    l: &[u64],
    wire: &mut [u64; PACKETS],
) -> Result<(), Full>
    requires { (1 ≤ p) × (length l.now ≡ ROW) }
    ensures row { held (is_ok result) (packets wire.new) ≡ putting (packets wire.old) (gather (again (view s.now) p here) (sort log_order (messages l.now))) }
    ensures words { held (is_ok result) (items wire.new) ≡ putting_words (items wire.old) (gather (again (view s.now) p here) (sort log_order (messages l.now))) }
{
    let mut sorted = [0; ROW];
    sorted.copy_from_slice(l);
    logs::sort(&mut sorted);
    resend_log(s, p, here, &sorted, wire)
}

// The log of q: of a chare on machine p that of its copy.
fn resend_from(s: &[u64; STORE], p: u8, q: u8, wire: &mut [u64; PACKETS]) -> Result<(), Full>
    requires { (1 ≤ p) × (q < 13) }
    ensures row { held (is_ok result) (packets wire.new) ≡ putting (packets wire.old) (all_again (view s.now) p q) }
    ensures words { held (is_ok result) (items wire.new) ≡ putting_words (items wire.old) (all_again (view s.now) p q) }
{
    let here = head::on(s, p, q);
    let from = if here { COPY } else { LIVE };
    let a = from + (q as usize) * MEMORY;
    resend_sorted(s, p, here, &s[a + LOG..a + MEMORY], wire)
}

pub(crate) fn resend_all(s: &[u64; STORE], p: u8, wire: &mut [u64; PACKETS]) -> Result<(), Full>
    requires { 1 ≤ p }
    ensures row { held (is_ok result) (packets wire.new) ≡ putting (packets wire.old) (gather (all_again (view s.now) p) every_sender) }
    ensures words { held (is_ok result) (items wire.new) ≡ putting_words (items wire.old) (gather (all_again (view s.now) p) every_sender) }
{
    for q in 0..13 {
        resend_from(s, p, q, wire)?;
    }
    Ok(())
}

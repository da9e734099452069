// The wire: a row of words, one a packet, oldest first, lent and changed in place. Every function takes a slice of any length.
// A packet's word: the peer is the receiver, the owner the sender, the kind as in a frame; of a GRANT the flags say which: 0 old,
// 1 received, 2 new.
#![tactic(auto)]

ghost use Rattle.std.specs.Prelude.{◌≡◌, not, ◌-◌, ◌≤◌, eqb, length};
ghost use Rattle.lists.specs.Lists.{keep};
ghost use Rattle.arrays.specs.Front.{push};
ghost use Rattle.protocol.specs.Packets.{is_named, kind, goes_to};
ghost use Rattle.protocol.specs.Crash.{survives};
ghost use Rattle.protocol.specs.Numbers.{kind_number};
ghost use Rattle.words.specs.Rows.{row, without};
ghost use Rattle.words.specs.Becomes.{Becomes};
ghost use Rattle.head.specs.Head.{HEAD, job_of};
ghost use Rattle.item.specs.Item.{item_of, items};
ghost use Rattle.packets.specs.Words.{content_of, as_packet, unpacked, fitted, packets};
ghost use Rattle.packets.specs.Packing.{body_of, packed};
ghost use Rattle.packets.specs.View.{sought};
ghost use Rattle.packets.specs.Names.{has_name};

use item::{Item, KIND};
use protocol::{Content, Kind, Packet};
use words::{OWNER, PEER};

// By which a packet is found. The kind may be any byte, and nothing is found of a kind that no packet has.
#[derive(Clone, Copy)]
pub struct Name {
    pub kind: u8,
    pub sender: u8,
    pub receiver: u8,
    pub sn: u16,
}

// What is found under a name: its place, and the packet.
#[derive(Clone, Copy)]
pub struct Found {
    pub place: usize,
    pub packet: Packet,
}

// An item with nothing but its content.
#[tactic(auto, unfolding(crate::specs::Packing::bare, crate::specs::Packing::body_of))]
fn body(c: Content) -> Item
    ensures { result ≡ body_of c }
{
    let nothing = Item {
        sn: 0,
        peer: 0,
        owner: 0,
        kind: 0,
        tn: 0,
        value: 0,
        hops: 0,
        flags: 0,
    };
    match c {
        Content::Ask => Item {
            kind: Kind::Ask.number(),
            ..nothing
        },
        Content::GrantOld => Item {
            kind: Kind::Grant.number(),
            ..nothing
        },
        Content::GrantReceived(tn) => Item {
            kind: Kind::Grant.number(),
            flags: 1,
            tn,
            ..nothing
        },
        Content::GrantNew(tn) => Item {
            kind: Kind::Grant.number(),
            flags: 2,
            tn,
            ..nothing
        },
        Content::Data { value, hops } => Item {
            kind: Kind::Data.number(),
            value,
            hops,
            ..nothing
        },
        Content::Note(tn) => Item {
            kind: Kind::Note.number(),
            tn,
            ..nothing
        },
        Content::Ack => Item {
            kind: Kind::Ack.number(),
            ..nothing
        },
    }
}

// `Packet` and `Item` are types of crates below, so no `From` can be written here: `pack` and `unpack` are both ways.
#[tactic(auto, unfolding(crate::specs::Packing::packed))]
fn pack(p: Packet) -> u64
    ensures { item_of result ≡ packed p }
{
    item::pack(Item {
        sn: p.sn,
        peer: p.receiver,
        owner: p.sender,
        ..body(p.content)
    })
}

#[tactic(auto, unfolding(crate::specs::Words::content_of, crate::specs::Words::carried, crate::specs::Words::granted))]
fn content(x: Item) -> Content
    ensures { result ≡ content_of x }
{
    match Kind::try_from(x.kind) {
        Ok(Kind::Ask) => Content::Ask,
        // Two bits of the word tell the three GRANTs apart.
        Ok(Kind::Grant) => match x.flags {
            0 => Content::GrantOld,
            1 => Content::GrantReceived(x.tn),
            _ => Content::GrantNew(x.tn),
        },
        Ok(Kind::Data) => Content::Data {
            value: x.value,
            hops: x.hops,
        },
        Ok(Kind::Note) => Content::Note(x.tn),
        Ok(Kind::Ack) | Err(_) => Content::Ack,
    }
}

#[tactic(auto, unfolding(crate::specs::Words::unpacked, crate::specs::Words::as_packet))]
fn unpack(w: u64) -> Packet
    ensures { result ≡ unpacked w }
{
    let x = item::unpack(w);
    let content = content(x);
    Packet {
        sender: x.owner,
        receiver: x.peer,
        sn: x.sn,
        content,
    }
}

// The kind of a word's packet, without its content.
fn kind(w: u64) -> Kind
    ensures { kind_number result ≡ kind (unpacked w).content }
{
    Kind::try_from((w / KIND % 8) as u8).unwrap_or(Kind::Ack)
}

// Sender, receiver and SN are all that stands below the kind, so most words are told from a name by one number.
#[tactic(auto, unfolding(crate::specs::Names::has_name))]
fn has_name(w: u64, name: u64, k: u8) -> bool
    ensures { result ≡ has_name name k w }
{
    w % KIND == name && kind(w).number() == k
}

// One call of `words`, as `push` and the like: the contract says it of what the words mean, and callers' laws speak of that.
pub fn count(ws: &[u64]) -> usize
    ensures { result ≡ length (packets ws.now) }
{
    words::count(ws)
}

// The oldest packet of a name. No word has a sender or a receiver above 15.
pub fn find(ws: &[u64], name: Name) -> Option<Found>
    ensures { result ≡ sought (is_named name.kind name.sender name.receiver name.sn) (packets ws.now) }
{
    if 16 <= name.sender || 16 <= name.receiver {
        return None;
    }
    let below = name.sn as u64 + PEER * (name.receiver as u64) + OWNER * (name.sender as u64);
    let items = words::items(ws);
    let place = items.iter().position(|&w| has_name(w, below, name.kind))?;
    Some(Found {
        place,
        packet: unpack(items[place]),
    })
}

// One more at the end; a full wire stays.
pub fn join(ws: &mut [u64], p: Packet)
    ensures row { Becomes packets ws.old ws.new (push (length ws.old - 1) (packets ws.old) (fitted p)) }
    ensures words { items ws.new ≡ push (length ws.old - 1) (items ws.old) (packed p) }
{
    words::push(ws, pack(p));
}

// Takes the packet at a place off.
pub fn leave(ws: &mut [u64], at: usize)
    ensures row { Becomes packets ws.old ws.new (without at (packets ws.old)) }
    ensures words { row ws.new ≡ without at (row ws.old) }
{
    words::remove(ws, at);
}

// A word's packet goes to machine p; h is a head.
#[tactic(auto, unfolding(protocol::specs::Packets::goes_to, crate::specs::Words::unpacked, crate::specs::Words::as_packet))]
fn goes_to(h: &[u64], p: u8, w: u64) -> bool
    requires { HEAD ≤ length h.now }
    ensures { result ≡ eqb (goes_to (job_of h.now) (unpacked w)) p }
{
    let x = item::unpack(w);
    head::destination(h, kind(w).number(), x.owner, x.peer) == p
}

// A word's packet outlives a crash of machine p; h is a head.
#[tactic(auto, unfolding(protocol::specs::Crash::survives, crate::specs::Words::unpacked, crate::specs::Words::as_packet))]
fn survives(h: &[u64], p: u8, w: u64) -> bool
    requires { HEAD ≤ length h.now }
    ensures { result ≡ survives (job_of h.now) p (unpacked w) }
{
    let given = matches!(kind(w), Kind::Grant | Kind::Note);
    !goes_to(h, p, w) && !(given && head::on(h, p, item::unpack(w).peer))
}

#[tactic(auto, unfolding(protocol::specs::Packets::is_named, crate::specs::Words::unpacked, crate::specs::Words::as_packet))]
fn is_named(w: u64, k: u8, sender: u8, receiver: u8, sn: u16) -> bool
    ensures { result ≡ is_named k sender receiver sn (unpacked w) }
{
    let x = item::unpack(w);
    kind(w).number() == k && x.owner == sender && x.peer == receiver && x.sn == sn
}

// Gone at a crash of machine p: all to p, and the GRANTs and NOTEs that its chares gave. h is a head.
pub fn after_crash(ws: &mut [u64], h: &[u64], p: u8)
    requires { HEAD ≤ length h.now }
    ensures row { Becomes packets ws.old ws.new (keep (survives (job_of h.now) p) (packets ws.old)) }
    ensures words { items ws.new ≡ keep (λ x. survives (job_of h.now) p (as_packet x)) (items ws.old) }
{
    item::retain(ws, |w| survives(h, p, w));
}

// Gone at a restart of machine p: all to p.
pub fn after_restart(ws: &mut [u64], h: &[u64], p: u8)
    requires { HEAD ≤ length h.now }
    ensures row { Becomes packets ws.old ws.new (keep (λ x. not (eqb (goes_to (job_of h.now) x) p)) (packets ws.old)) }
    ensures words { items ws.new ≡ keep (λ x. not (eqb (goes_to (job_of h.now) (as_packet x)) p)) (items ws.old) }
{
    item::retain(ws, |w| !goes_to(h, p, w));
}

// Takes every packet of a name off. The kind may be any byte, and none leaves of a kind that no packet has: docs/changes names this function,
// and what it takes stays as it was.
pub fn leave_all(ws: &mut [u64], kind: u8, sender: u8, receiver: u8, sn: u16)
    ensures row { Becomes packets ws.old ws.new (keep (λ x. not (is_named kind sender receiver sn x)) (packets ws.old)) }
    ensures words { items ws.new ≡ keep (λ x. not (is_named kind sender receiver sn (as_packet x))) (items ws.old) }
{
    item::retain(ws, |w| !is_named(w, kind, sender, receiver, sn));
}

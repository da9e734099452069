// One word for every item of a row: a ticket, a logged message, a note, a packet. The fields, lowest first, each with its number of bits:
// SN 16, peer 4, owner 4, kind 3, TN 16, value 16, hops 3, flags 2, in all 64. Any word is an item: no field can be out of range.
#![tactic(auto)]

ghost use Rattle.std.specs.Prelude.{◌≡◌, ◌<◌, Bool, map};
ghost use Rattle.lists.specs.Lists.{keep};
ghost use Rattle.words.specs.Fields.{bit};
ghost use Rattle.words.specs.Becomes.{Becomes};
ghost use Rattle.item.specs.Item.{item_of, items, clipped};
ghost use Rattle.item.specs.Sifts.{Sifts, Keeps};
ghost use Rattle.item.specs.declared.Item.{Item};

use words::{OWNER, PEER};

pub const KIND: u64 = 16 * OWNER;

pub const TN: u64 = 8 * KIND;

pub const VALUE: u64 = 65536 * TN;

pub const HOPS: u64 = 65536 * VALUE;

pub const FLAGS: u64 = 8 * HOPS;

#[derive(Clone, Copy)]
pub struct Item {
    pub sn: u16,
    pub peer: u8,
    pub owner: u8,
    pub kind: u8,
    pub tn: u16,
    pub value: u16,
    pub hops: u8,
    pub flags: u8,
}

// Peer and owner count modulo 16, kind and hops modulo 8, flags modulo 4.
pub fn pack(x: Item) -> u64
    ensures { item_of result ≡ clipped x }
{
    x.sn as u64
        + PEER * ((x.peer % 16) as u64)
        + OWNER * ((x.owner % 16) as u64)
        + KIND * ((x.kind % 8) as u64)
        + TN * (x.tn as u64)
        + VALUE * (x.value as u64)
        + HOPS * ((x.hops % 8) as u64)
        + FLAGS * ((x.flags % 4) as u64)
}

pub fn unpack(w: u64) -> Item
    ensures { result ≡ item_of w }
{
    Item {
        sn: (w % PEER) as u16,
        peer: (w / PEER % 16) as u8,
        owner: (w / OWNER % 16) as u8,
        kind: (w / KIND % 8) as u8,
        tn: tn(w),
        value: (w / VALUE % 65536) as u16,
        hops: (w / HOPS % 8) as u8,
        flags: (w / FLAGS % 4) as u8,
    }
}

pub fn tn(w: u64) -> u16
    ensures { result ≡ (item_of w).tn }
{
    (w / TN % 65536) as u16
}

// The library's conversion, with a bound that packing needs.
pub fn bit(b: bool) -> u8
    ensures is { result ≡ bit b }
    ensures small { result < 2 }
{
    u8::from(b)
}

// Sifts a row in place: an item becomes what is answered for it, and leaves the row where nothing is; the others keep their order. Any
// test and any change that tell what is answered tell what the row becomes. By index, since what is read and what is written are one slice.
pub fn sift<F: Fn(u64) -> Option<u64>>(ws: &mut [u64], answer: F)
    requires { F.IsAlwaysCallable answer }
    ensures { (stays : Item → Bool) (becomes : Item → Item) → Sifts stays becomes (F.post answer) → Becomes items ws.old ws.new (map becomes (keep stays (items ws.old))) }
{
    let n = words::count(ws);
    let mut k = 0;
    for i in 0..n {
        if let Some(w) = answer(ws[i + 1]) {
            ws[k + 1] = w;
            k += 1;
        }
    }
    if k < n {
        ws[0] = k as u64;
    }
}

// Keeps the items that pass, in their order.
pub fn retain<F: Fn(u64) -> bool>(ws: &mut [u64], passes: F)
    requires { F.IsAlwaysCallable passes }
    ensures { (stays : Item → Bool) → Keeps stays (F.post passes) → Becomes items ws.old ws.new (keep stays (items ws.old)) }
{
    sift(ws, |w| passes(w).then_some(w));
}

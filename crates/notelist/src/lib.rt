// The notes that a buddy keeps for a machine: a row of words, one a note, lent and changed in place. Every function takes a slice of any length.
#![tactic(auto)]

ghost use Rattle.std.specs.Prelude.{◌≡◌, [], ◌-◌, length, get_or};
ghost use Rattle.arrays.specs.Front.{push as pushed};
ghost use Rattle.protocol.specs.Packets.{has_note};
ghost use Rattle.words.specs.Becomes.{Becomes};
ghost use Rattle.item.specs.Item.{item_of, items};
ghost use Rattle.notelist.specs.Notes.{note_of, fitted, packed, notes};

use item::{Item, KIND};
use protocol::Note;
use words::{OWNER, PEER};

// `Note` and `Item` are types of crates below, so no `From` can be written here: `pack` and `unpack` are both ways.
fn pack(x: Note) -> u64
    ensures { item_of result ≡ packed x }
{
    item::pack(Item {
        sn: x.sn,
        peer: x.receiver,
        owner: x.sender,
        kind: 0,
        tn: x.tn,
        value: 0,
        hops: 0,
        flags: 0,
    })
}

// The note that a word means.
pub fn unpack(w: u64) -> Note
    ensures { result ≡ note_of w }
{
    let x = item::unpack(w);
    Note {
        sender: x.owner,
        receiver: x.peer,
        sn: x.sn,
        tn: x.tn,
    }
}

// One call of `words`, as `push` and the like: the contract says it of what the words mean, and callers' laws speak of that.
pub fn count(ws: &[u64]) -> usize
    ensures { result ≡ length (notes ws.now) }
{
    words::count(ws)
}

// The note at i; past the last, what the word 0 means.
pub fn at(ws: &[u64], i: usize) -> Note
    ensures { result ≡ get_or (notes ws.now) i (note_of 0) }
{
    unpack(words::read(ws, i))
}

// The list has this note. SN, receiver and sender are a word's lowest fields: one remainder and the TN tell it. No word has a chare above 15.
pub fn has(ws: &[u64], x: Note) -> bool
    ensures { result ≡ has_note (notes ws.now) x }
{
    if 16 <= x.receiver || 16 <= x.sender {
        return false;
    }
    let name = x.sn as u64 + PEER * (x.receiver as u64) + OWNER * (x.sender as u64);
    words::items(ws)
        .iter()
        .any(|&w| w % KIND == name && item::tn(w) == x.tn)
}

// One more at the end; a full list stays.
pub fn push(ws: &mut [u64], x: Note)
    ensures row { Becomes notes ws.old ws.new (pushed (length ws.old - 1) (notes ws.old) (fitted x)) }
    ensures words { items ws.new ≡ pushed (length ws.old - 1) (items ws.old) (packed x) }
{
    words::push(ws, pack(x));
}

// No note any more: the count becomes 0.
pub fn empty(ws: &mut [u64])
    ensures { Becomes notes ws.old ws.new [] }
{
    if 0 < words::count(ws) {
        ws[0] = 0;
    }
}

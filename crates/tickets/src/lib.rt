// A receiver's ticket table: a row of words, one an entry, lent and changed in place. Every function takes a slice of any length.
#![tactic(auto)]

ghost use Rattle.std.specs.Prelude.{◌≡◌, map, ◌-◌, ◌%◌, length, get_or, is_ok};
ghost use Rattle.lists.specs.Lists.{anyb, keep, find as first, change1};
ghost use Rattle.lists.specs.Options.{maybe};
ghost use Rattle.arrays.specs.Front.{push as pushed};
ghost use Rattle.protocol.specs.Tickets.{for_message, entry, fill as fill-in, filled, mark_noted, unreceived, has_tn, highest as highest-of, lowest_hole, next_tn};
ghost use Rattle.protocol.specs.Checkpoint.{above_height};
ghost use Rattle.protocol.specs.Restart.{below_hole};
ghost use Rattle.words.specs.Becomes.{Becomes};
ghost use Rattle.item.specs.Item.{item_of, items};
ghost use Rattle.tickets.specs.Table.{as_entry, entry_of, fitted, packed, entries, Entering};

use item::Item;
use protocol::Entry;
use words::Full;

// `Entry` and `Item` are types of crates below, so no `From` can be written here: `pack` and `unpack` are both ways.
fn pack(e: Entry) -> u64
    ensures { item_of result ≡ packed e }
{
    let flags = item::bit(e.received) + 2 * item::bit(e.noted);
    item::pack(Item {
        sn: e.sn,
        peer: e.sender,
        owner: 0,
        kind: 0,
        tn: e.tn,
        value: e.value,
        hops: e.hops,
        flags,
    })
}

// The entry that a word means.
pub fn unpack(w: u64) -> Entry
    ensures { result ≡ entry_of w }
{
    let x = item::unpack(w);
    Entry {
        sender: x.peer,
        sn: x.sn,
        tn: x.tn,
        received: x.flags % 2 == 1,
        noted: x.flags / 2 == 1,
        value: x.value,
        hops: x.hops,
    }
}

// One call of `words`, as `push` and the like: the contract says it of what the words mean, and callers' laws speak of that.
pub fn count(ws: &[u64]) -> usize
    ensures { result ≡ length (entries ws.now) }
{
    words::count(ws)
}

// The entry at i; past the last, what the word 0 means.
pub fn at(ws: &[u64], i: usize) -> Entry
    ensures { result ≡ get_or (entries ws.now) i (entry_of 0) }
{
    unpack(words::read(ws, i))
}

// The first entry for a sender and an SN.
pub fn find(ws: &[u64], sender: u8, sn: u16) -> Option<Entry>
    ensures { maybe result ≡ entry (entries ws.now) sender sn }
{
    let i = words::seek(ws, sender, sn)?;
    Some(at(ws, i))
}

// The first entry with a TN.
pub fn find_tn(ws: &[u64], tn: u16) -> Option<Entry>
    ensures { maybe result ≡ first (has_tn tn) (entries ws.now) }
{
    words::items(ws)
        .iter()
        .copied()
        .find(|&w| item::tn(w) == tn)
        .map(unpack)
}

// One more entry at the end; a full table stays.
pub fn push(ws: &mut [u64], e: Entry)
    ensures row { Becomes entries ws.old ws.new (pushed (length ws.old - 1) (entries ws.old) (fitted e)) }
    ensures words { items ws.new ≡ pushed (length ws.old - 1) (items ws.old) (packed e) }
{
    words::push(ws, pack(e));
}

// A ticket, not received and noted from the start, at the end; a full table stays.
pub fn enter(ws: &mut [u64], sender: u8, sn: u16, tn: u16)
    ensures row { Becomes entries ws.old ws.new (pushed (length ws.old - 1) (entries ws.old) (unreceived (sender % 16) sn tn)) }
    ensures words { items ws.new ≡ pushed (length ws.old - 1) (items ws.old) (packed (unreceived sender sn tn)) }
{
    let e = Entry {
        sender,
        sn,
        tn,
        received: false,
        noted: true,
        value: 0,
        hops: 0,
    };
    push(ws, e);
}

// The same unless the table has the sender and SN already; without room for it the table stays.
pub fn enter_once(ws: &mut [u64], sender: u8, sn: u16, tn: u16) -> Result<(), Full>
    ensures { Entering ws.old (sender % 16) sn tn ws.new (is_ok result) }
{
    let s = sender % 16;
    if words::seek(ws, s, sn).is_some() {
        return Ok(());
    }
    if ws.len() <= words::count(ws) + 1 {
        return Err(Full);
    }
    enter(ws, s, sn, tn);
    Ok(())
}

// The first entry for a sender and an SN becomes received, with the message's value and hops.
pub fn fill(ws: &mut [u64], sender: u8, sn: u16, value: u16, hops: u8)
    ensures row { Becomes entries ws.old ws.new (filled sender sn value (hops % 8) (entries ws.old)) }
    ensures words { items ws.new ≡ change1 (λ x. for_message sender sn (as_entry x)) (λ x. packed (fill-in value hops (as_entry x))) (items ws.old) }
{
    if let Some(i) = words::seek(ws, sender, sn) {
        let e = Entry {
            received: true,
            value,
            hops,
            ..at(ws, i)
        };
        words::write(ws, i, pack(e));
    }
}

// An entry noted.
fn noted(w: u64) -> u64
    ensures { item_of result ≡ packed (mark_noted (entry_of w)) }
{
    pack(Entry {
        noted: true,
        ..unpack(w)
    })
}

// The first entry for a sender and an SN becomes noted.
pub fn note(ws: &mut [u64], sender: u8, sn: u16)
    ensures row { Becomes entries ws.old ws.new (change1 (for_message sender sn) mark_noted (entries ws.old)) }
    ensures words { items ws.new ≡ change1 (λ x. for_message sender sn (as_entry x)) (λ x. packed (mark_noted (as_entry x))) (items ws.old) }
{
    if let Some(i) = words::seek(ws, sender, sn) {
        let w = noted(words::read(ws, i));
        words::write(ws, i, w);
    }
}

// The entries above a height, all noted.
pub fn prune(ws: &mut [u64], height: u16)
    ensures row { Becomes entries ws.old ws.new (map mark_noted (keep (above_height height) (entries ws.old))) }
    ensures words { items ws.new ≡ map (λ x. packed (mark_noted (as_entry x))) (keep (λ x. above_height height (as_entry x)) (items ws.old)) }
{
    item::sift(ws, |w| (height < item::tn(w)).then(|| noted(w)));
}

// The largest of the height and the TNs.
pub fn highest(ws: &[u64], height: u16) -> u16
    ensures { result ≡ highest-of height (entries ws.now) }
{
    words::items(ws)
        .iter()
        .fold(height, |h, &w| h.max(item::tn(w)))
}

fn has_tn(ws: &[u64], tn: u16) -> bool
    ensures { result ≡ anyb (has_tn tn) (entries ws.now) }
{
    words::items(ws).iter().any(|&w| item::tn(w) == tn)
}

// The lowest TN above the height and below the top that no entry has.
pub fn lowest_hole(ws: &[u64], height: u16, top: u16) -> Option<u16>
    ensures { maybe result ≡ lowest_hole height top (entries ws.now) }
{
    if top <= height {
        return None;
    }
    (height + 1..top).find(|&tn| !has_tn(ws, tn))
}

// The TN of a new ticket: the lowest hole, if any, else the highest plus 1.
pub fn next_tn(ws: &[u64], height: u16, top: u16) -> u32
    ensures { result ≡ next_tn height top (entries ws.now) }
{
    match lowest_hole(ws, height, top) {
        Some(tn) => u32::from(tn),
        None => u32::from(highest(ws, height)) + 1,
    }
}

// The TN to reach: the one below the lowest hole, or the highest.
pub fn target(ws: &[u64], height: u16, top: u16) -> u16
    ensures { result ≡ below_hole (lowest_hole height top (entries ws.now)) (highest-of height (entries ws.now)) }
{
    match lowest_hole(ws, height, top) {
        Some(tn) => tn - 1,
        None => highest(ws, height),
    }
}

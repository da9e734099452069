// A counted row of words: the count, then the items, at most as many as there is room behind the count. Every function takes a slice of
// any length. Tables, logs, note lists and the wire are rows; what a word means is theirs.
#![tactic(auto)]

ghost use Rattle.std.specs.Prelude.{◌≡◌, ◌+◌, ◌-◌, ◌≤◌, ◌<◌, length, get_or, set, replicate, IfSome, unwrap_or};
ghost use Rattle.words.specs.Part.{part, put};
ghost use Rattle.arrays.specs.Front.{push as pushed};
ghost use Rattle.arrays.specs.Place.{place};
ghost use Rattle.words.specs.Rows.{row, named, without};
ghost use Rattle.words.specs.Becomes.{Becomes};

// An item's lowest fields are an SN and its peer, 16 values each to be told apart by the next place value, its owner's.
pub const PEER: u64 = 65536;

pub const OWNER: u64 = 16 * PEER;

// A row that has no room for one item more.
#[derive(Clone, Copy)]
pub struct Full;

pub fn count(ws: &[u64]) -> usize
    ensures is { result ≡ length (row ws.now) }
    ensures within { result ≤ length ws.now - 1 }
{
    match ws.split_first() {
        Some((&n, room)) => n.min(room.len() as u64) as usize,
        None => 0,
    }
}

// The items, where they stand.
pub fn items(ws: &[u64]) -> &[u64]
    ensures { result.now ≡ row ws.now }
{
    ws.get(1..count(ws) + 1).unwrap_or(&[])
}

// The item at i, or 0 past the last.
pub fn read(ws: &[u64], i: usize) -> u64
    ensures { result ≡ get_or (row ws.now) i 0 }
{
    items(ws).get(i).copied().unwrap_or(0)
}

// The place of the first item with this peer and SN.
pub fn seek(ws: &[u64], peer: u8, sn: u16) -> Option<usize>
    ensures is { unwrap_or result (length (row ws.now)) ≡ place (named peer sn) (row ws.now) }
    ensures within { IfSome result (λ i. i < length (row ws.now)) }
{
    let name = sn as u64 + PEER * (peer as u64);
    items(ws).iter().position(|&w| w % OWNER == name)
}

// The item at i anew; past the last nothing changes.
pub fn write(ws: &mut [u64], i: usize, x: u64)
    ensures { Becomes row ws.old ws.new (set (row ws.old) i x) }
{
    if i < count(ws) {
        ws[i + 1] = x;
    }
}

// One more at the end; a full row stays.
pub fn push(ws: &mut [u64], x: u64)
    ensures { Becomes row ws.old ws.new (pushed (length ws.old - 1) (row ws.old) x) }
{
    let n = count(ws);
    if n + 1 < ws.len() {
        ws[n + 1] = x;
        ws[0] = (n + 1) as u64;
    }
}

// Takes the item at a place out; those behind it move down. Past the last nothing changes.
pub fn remove(ws: &mut [u64], at: usize)
    ensures { Becomes row ws.old ws.new (without at (row ws.old)) }
{
    let n = count(ws);
    if n <= at {
        return;
    }
    ws.copy_within(at + 2..n + 1, at + 1);
    ws[0] = (n - 1) as u64;
}

// Copies n words from one place of a store to another: the library's method, said by the parts of which the store's laws speak.
pub fn copy(s: &mut [u64], from: usize, to: usize, n: usize)
    requires { (from + n ≤ length s.old) × (to + n ≤ length s.old) }
    ensures { s.new ≡ put to n s.old (part from n s.old) }
{
    s.copy_within(from..from + n, to);
}

// Every word 0: the library's method, whose contract asks first whether a clone is the same.
pub fn clear(ws: &mut [u64])
    ensures { ws.new ≡ replicate (length ws.old) 0 }
{
    ws.fill(0);
}

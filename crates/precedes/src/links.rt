// Reads a row's records one by one, and links each to the record before it on its chare and to the one that sent its message.
ghost use Rattle.std.specs.Prelude.{◌≡◌, true, suc, ◌<◌, ◌≤◌, set, IfSome, unwrap_or};
ghost use Rattle.precedes.specs.Precedes.{name, origin, bad_place};
ghost use Rattle.precedes.specs.Chains.{previous};
ghost use Rattle.precedes.specs.Links.{SLOTS, tabled, slot, found, next_by, sent_by, admits};
ghost use Rattle.precedes.specs.Reading.{Reading, read_to, zeros};

use crate::Processing;

// A slot for each of the TNs 1 to 512 of the chares 1 to 12.
pub const SLOTS: usize = 6144;

// Where the table has the place of a chare's processing with this TN.
fn slot(chare: u8, tn: u16) -> usize
    requires { (1 ≤ chare) × (1 ≤ tn) }
    ensures { result ≡ slot (chare, tn) }
{
    (chare as usize - 1) * 512 + (tn as usize - 1)
}

// The place of a chare's processing with this TN among the records read so far, counted from 1; the table has 0 for one that is not among
// them.
pub fn find(at: &[u16; SLOTS], chare: u8, tn: u16) -> Option<u16>
    ensures is { unwrap_or result 0 ≡ found at.now (chare, tn) }
    ensures from_one { IfSome result (λ place. 0 < place) }
{
    if chare == 0 || 12 < chare || tn == 0 || 512 < tn {
        return None;
    }
    let place = at[slot(chare, tn)];
    if place == 0 { None } else { Some(place) }
}

// Is it the chare's next TN? It was not read yet, and the one below it was, or it is 1.
fn is_next(at: &[u16; SLOTS], chare: u8, tn: u16) -> bool
    ensures { result ≡ next_by at.now chare tn }
{
    if tn == 0 || find(at, chare, tn).is_some() {
        return false;
    }
    tn == 1 || find(at, chare, tn - 1).is_some()
}

// Did the desk or a record that was read send the message?
fn is_sent(at: &[u16; SLOTS], sender: u8, tn: u16) -> bool
    ensures { result ≡ sent_by at.now sender tn }
{
    if sender == 0 {
        return tn == 0;
    }
    find(at, sender, tn).is_some()
}

// May the record stand behind those that were read?
fn good(at: &[u16; SLOTS], p: Processing) -> bool
    ensures { result ≡ admits at.now p }
{
    if p.chare == 0 || 12 < p.chare || 12 < p.sender {
        return false;
    }
    is_sent(at, p.sender, p.sender_tn) && is_next(at, p.chare, p.tn)
}

// Links record i, a good one, and puts its place into the table.
fn put(
    p: Processing,
    i: usize,
    at: &mut [u16; SLOTS],
    before: &mut [u16; 512],
    sent: &mut [u16; 512],
)
    requires room { i < 512 }
    requires p_value { tabled (name p) ≡ true }
    ensures at { at.new ≡ set at.old (slot (name p)) (suc i) }
    ensures before { before.new ≡ set before.old i (found at.old (previous p)) }
    ensures sent { sent.new ≡ set sent.old i (found at.old (origin p)) }
{
    before[i] = find(at, p.chare, p.tn - 1).unwrap_or(0);
    sent[i] = find(at, p.sender, p.sender_tn).unwrap_or(0);
    at[slot(p.chare, p.tn)] = i as u16 + 1;
}

// The place of the first bad record, if there is one; all records before it are linked. Past 512 a record is bad.
pub fn link(
    row: &[Processing],
    at: &mut [u16; SLOTS],
    before: &mut [u16; 512],
    sent: &mut [u16; 512],
) -> Option<u16>
    requires { (at.old ≡ zeros SLOTS) × (before.old ≡ zeros 512) × (sent.old ≡ zeros 512) }
    ensures place { unwrap_or result 0 ≡ bad_place row.now }
    ensures from_one { IfSome result (λ place. 0 < place) }
    ensures links { Reading row.now (read_to row.now (unwrap_or result 0)) at.new before.new sent.new }
{
    for (i, &p) in row.iter().enumerate() {
        if i == 512 {
            return Some(513);
        }
        if !good(at, p) {
            return Some(i as u16 + 1);
        }
        put(p, i, at, before, sent);
    }
    None
}

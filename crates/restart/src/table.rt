// The table of a chare at the restart of its machine, built in a row of its own.
ghost use Rattle.std.specs.Prelude.{◌≡◌, map, ◌<◌, is_ok};
ghost use Rattle.lists.specs.Lists.{gather};
ghost use Rattle.protocol.specs.Parts.{every_sender, every_chare};
ghost use Rattle.protocol.specs.Restart.{is_ticketed_above, local_log, filled_table};
ghost use Rattle.item.specs.Item.{items};
ghost use Rattle.tickets.specs.Table.{packed, entries};
ghost use Rattle.logs.specs.Log.{entries as messages};
ghost use Rattle.notelist.specs.Notes.{notes};
ghost use Rattle.store.specs.View.{view};
ghost use Rattle.restart.specs.Limited.{held, limit};
ghost use Rattle.restart.specs.Tables.{entering};
ghost use Rattle.restart.specs.Sources.{copied, logged, noted, sender_tickets};
ghost use Rattle.restart.specs.Fills.{filling};
ghost use Rattle.restart.specs.Words.{AllPacked};

use memory::{LOG, MEMORY, ROW, TABLE};
use protocol::Logged;
use store::{COPY, LIVE, NOTELIST, NOTES, STORE};
use words::Full;

// The copy's tickets, none received.
fn from_copy(row: &mut [u64; ROW], t: &[u64]) -> Result<(), Full>
    ensures row { held (is_ok result) (entries row.new) ≡ entering (entries row.old) (gather copied (entries t.now)) }
    ensures words { AllPacked row.old → AllPacked row.new }
{
    for &w in words::items(t) {
        let e = tickets::unpack(w);
        tickets::enter_once(row, e.sender, e.sn, e.tn)?;
    }
    Ok(())
}

// A message to chare c with a TN above the height.
fn is_above(x: Logged, c: u8, h: u16) -> bool
    ensures { result ≡ is_ticketed_above c h x }
{
    x.message.receiver == c && h < x.tn
}

// The tickets above the height that a log holds for chare c.
fn from_log(row: &mut [u64; ROW], l: &[u64], c: u8, h: u16) -> Result<(), Full>
    ensures row { held (is_ok result) (entries row.new) ≡ entering (entries row.old) (gather (logged c h) (messages l.now)) }
    ensures words { AllPacked row.old → AllPacked row.new }
{
    for &w in words::items(l) {
        let x = logs::unpack(w);
        if is_above(x, c, h) {
            tickets::enter_once(row, x.message.sender, x.message.sn, x.tn)?;
        }
    }
    Ok(())
}

// Of the logs on other machines than p and of the desk's.
fn from_logs(row: &mut [u64; ROW], s: &[u64; STORE], p: u8, c: u8, h: u16) -> Result<(), Full>
    ensures row { held (is_ok result) (entries row.new) ≡ entering (entries row.old) (gather (sender_tickets (view s.now) p c h) every_sender) }
    ensures words { AllPacked row.old → AllPacked row.new }
{
    for q in 0..13 {
        if !head::on(s, p, q) {
            let a = LIVE + (q as usize) * MEMORY;
            from_log(row, &s[a + LOG..a + MEMORY], c, h)?;
        }
    }
    Ok(())
}

// The notes above the height.
fn from_notes(row: &mut [u64; ROW], n: &[u64], c: u8, h: u16) -> Result<(), Full>
    ensures row { held (is_ok result) (entries row.new) ≡ entering (entries row.old) (gather (noted c h) (notes n.now)) }
    ensures words { AllPacked row.old → AllPacked row.new }
{
    for &w in words::items(n) {
        let x = notelist::unpack(w);
        if x.receiver == c && h < x.tn {
            tickets::enter_once(row, x.sender, x.sn, x.tn)?;
        }
    }
    Ok(())
}

// Restored log messages to chare c above the height fill their entries.
fn fill_from(row: &mut [u64; ROW], l: &[u64], c: u8, h: u16)
    ensures row { entries row.new ≡ filling c h (entries row.old) (messages l.now) }
    ensures words { AllPacked row.old → AllPacked row.new }
{
    for &w in words::items(l) {
        let x = logs::unpack(w);
        if is_above(x, c, h) {
            let m = x.message;
            tickets::fill(row, m.sender, m.sn, m.value, m.hops);
        }
    }
}

fn fill_all(row: &mut [u64; ROW], s: &[u64; STORE], p: u8, c: u8, h: u16)
    ensures row { entries row.new ≡ filling c h (entries row.old) (gather (local_log (view s.now) p) every_chare) }
    ensures words { AllPacked row.old → AllPacked row.new }
{
    for q in 1..13 {
        if head::on(s, p, q) {
            let a = COPY + (q as usize) * MEMORY;
            fill_from(row, &s[a + LOG..a + MEMORY], c, h);
        }
    }
}

// The table of chare c on machine p, where it fits.
pub(crate) fn build(s: &[u64; STORE], p: u8, c: u8, row: &mut [u64; ROW]) -> Result<(), Full>
    requires { (p < 7) × (c < 13) }
    ensures row { held (is_ok result) (entries row.new) ≡ limit 16 (filled_table (view s.now) p c) }
    ensures words { items row.new ≡ map packed (entries row.new) }
{
    row[0] = 0;
    let a = COPY + (c as usize) * MEMORY;
    let h = memory::height(&s[a..a + MEMORY]);
    from_copy(row, &s[a + TABLE..a + LOG])?;
    from_logs(row, s, p, c, h)?;
    let n = NOTES + (p as usize) * NOTELIST;
    from_notes(row, &s[n..n + NOTELIST], c, h)?;
    fill_all(row, s, p, c, h);
    Ok(())
}

// The chares of a machine come back: the copy, with the table that was built for it.
ghost use Rattle.std.specs.Prelude.{◌≡◌, ◌<◌, ◌≤◌, length, is_ok};
ghost use Rattle.protocol.specs.Restart.{target_of};
ghost use Rattle.tickets.specs.Table.{entries};
ghost use Rattle.memory.specs.Places.{MEMORY};
ghost use Rattle.memory.specs.View.{memory_view};
ghost use Rattle.store.specs.View.{view};
ghost use Rattle.restart.specs.Restored.{renewed, come_back};
ghost use Rattle.restart.specs.Homes.{AllTables, all_back};

use crate::table::build;
use head::TARGET;
use memory::{LOG, MEMORY, ROW, TABLE, TOP};
use store::{COPY, LIVE, STORE};
use words::Full;

// The tables of all chares on machine p, one row a chare.
pub(crate) fn tables(s: &[u64; STORE], p: u8, rows: &mut [[u64; ROW]; 13]) -> Result<(), Full>
    requires { p < 7 }
    ensures { AllTables (view s.now) p rows.new (is_ok result) }
{
    for c in 1..13 {
        if head::on(s, p, c) {
            build(s, p, c, &mut rows[c as usize])?;
        }
    }
    Ok(())
}

// A memory gets its table and its top; the TN to reach.
fn renew(m: &mut [u64], row: &[u64; ROW]) -> u16
    requires { length m.old ≡ MEMORY }
    ensures memory { memory_view m.new ≡ renewed (memory_view m.old) (entries row.now) }
    ensures target { result ≡ target_of (renewed (memory_view m.old) (entries row.now)) }
{
    let h = memory::height(m);
    let top = tickets::highest(row, h);
    m[TABLE..LOG].copy_from_slice(row);
    m[TOP] = top as u64;
    tickets::target(row, h, top)
}

// Chare c is back.
fn come_back(s: &mut [u64; STORE], c: u8, row: &[u64; ROW])
    requires { c < 13 }
    ensures { view s.new ≡ come_back (view s.old) c (entries row.now) }
{
    let i = c as usize;
    let a = LIVE + i * MEMORY;
    words::copy(s, COPY + i * MEMORY, a, MEMORY);
    let target = renew(&mut s[a..a + MEMORY], row);
    s[TARGET + i] = target as u64;
}

pub(crate) fn all_back(s: &mut [u64; STORE], p: u8, rows: &[[u64; ROW]; 13])
    requires { 1 ≤ p }
    ensures { view s.new ≡ all_back (view s.old) p rows.now }
{
    for c in 0..13 {
        if head::on(s, p, c) {
            come_back(s, c, &rows[c as usize]);
        }
    }
}

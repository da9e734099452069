// The entries of the static library, for callers in C and Rust.
#![tactic(auto)]

ghost use Rattle.std.specs.Prelude.{◌≡◌, cond, is_ok};
ghost use Rattle.store.specs.Places.{STORE};
ghost use Rattle.transcript.specs.View.{reading, Feeding, written_of};
ghost use Rattle.satuphir.specs.Entry.{no_room, Entered, Finished, Counted, Answered};

use crashsets::ROOM;
use precedes::Processing;
use store::STORE;
use transcript::{LINE, NoRoom};

// How many bytes were written, or the largest number where room ran out.
fn number(end: Result<usize, NoRoom>) -> usize
    ensures { result ≡ cond (is_ok end) (written_of end) no_room }
{
    end.unwrap_or(usize::MAX)
}

// Writes the answers to a whole input into the buffer and returns how many bytes they are. Where fewer than 16 bytes are left ahead of a
// line it stops there and returns the largest number. Either way `written` gets the number of bytes that were written, and the buffer
// begins with the answers to the lines that were taken; 16 bytes a line are enough.
#[unsafe(no_mangle)]
pub extern "C" fn satuphir_transcript(input: &[u8], out: &mut [u8], written: &mut usize) -> usize
    ensures { Entered input.now out.old result written.new out.new }
{
    let end = transcript::whole(input, out);
    *written = end.unwrap_or_else(|no| no.written);
    number(end)
}

// How many words a store has: it moves when the rules do, and a caller that was built with another header sees it here.
#[unsafe(no_mangle)]
pub extern "C" fn satuphir_state_words() -> usize
    ensures { result ≡ STORE }
{
    STORE
}

// Feeds a reader a piece of an input and returns how many bytes it took: it stops where fewer than 16 bytes of the buffer are left ahead
// of a byte. A reader is a store, the first bytes of the line under way and their count; zeros have read nothing.
#[unsafe(no_mangle)]
pub extern "C" fn satuphir_feed(
    store: &mut [u64; STORE],
    line: &mut [u8; LINE],
    len: &mut usize,
    input: &[u8],
    out: &mut [u8],
    written: &mut usize,
) -> usize
    ensures { Feeding (reading store.old line.old len.old) input.now out.old (record { len = len.new; taken = result; written = written.new }) store.new line.new out.new }
{
    let f = transcript::feed(store, line, *len, input, out);
    *len = f.len;
    *written = f.written;
    f.taken
}

// At the end of the input: answers a last line that has no newline, and returns how many bytes were written. Where the buffer has fewer
// than 16 bytes for it, it returns the largest number, and the reader is as it was.
#[unsafe(no_mangle)]
pub extern "C" fn satuphir_finish(
    store: &mut [u64; STORE],
    line: &mut [u8; LINE],
    len: &mut usize,
    out: &mut [u8],
) -> usize
    ensures { Finished (reading store.old line.old len.old) len.old out.old result len.new store.new line.new out.new }
{
    let end = transcript::finish(store, line, *len, out);
    if end.is_ok() {
        *len = 0;
    }
    number(end)
}

// Writes how many crash sets are survived by the job in the first line of the input, and returns how many bytes these lines are. Where
// the buffer has fewer than 48 bytes it returns the largest number, and the buffer is left as it is.
#[unsafe(no_mangle)]
pub extern "C" fn satuphir_survivors(input: &[u8], out: &mut [u8]) -> usize
    ensures { Counted input.now out.old result out.new }
{
    match out.first_chunk_mut::<ROOM>() {
        Some(front) => crashsets::survivors(input, front),
        None => usize::MAX,
    }
}

// Does the processing of `chare` with TN `tn` precede that of `later_chare` with TN `later_tn` in the row? 0 no, 1 yes, 2 that one of
// them is not in the row, and 1000 + the place of the first bad record where the row is bad.
#[unsafe(no_mangle)]
pub extern "C" fn satuphir_precedes(
    row: &[Processing],
    chare: u8,
    tn: u16,
    later_chare: u8,
    later_tn: u16,
) -> u32
    ensures { Answered row.now (chare, tn) (later_chare, later_tn) result }
{
    u32::from(precedes::precedes(row, chare, tn, later_chare, later_tn))
}

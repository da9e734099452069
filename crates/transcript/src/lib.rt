// From the bytes of an input to the bytes of the answers, in pieces of any size and in constant memory. A reader is a store, the first bytes
// of the line under way and their count; a store of zeros and no bytes is a reader that has read nothing.
#![tactic(auto)]

ghost use Rattle.std.specs.Prelude.{◌≡◌, ◌++◌, ◌+◌, ◌≤◌, min, length, take};
ghost use Rattle.arrays.specs.Copies.{put_at};
ghost use Rattle.transcript.specs.Reading.{printed, answer_room};
ghost use Rattle.transcript.specs.View.{reading, Feeding, Ending, Transcribed};

use protocol::Answer;
use store::STORE;

// One more than the longest frame has digits: of a longer line the first bytes are kept, which are no frame either.
pub const LINE: usize = 2047;

// The room for an answer's line, its newline included.
const ANSWER: usize = 16;

// A reader that was fed: what it has of the line under way, how many bytes it took, and how many it wrote. Store, line and count are lent by
// callers in C, each by its own pointer, so no struct holds a reader.
#[derive(Clone, Copy)]
pub struct Fed {
    pub len: usize,
    pub taken: usize,
    pub written: usize,
}

// The buffer had no room for all answers; how many bytes were written.
#[derive(Clone, Copy)]
pub struct NoRoom {
    pub written: usize,
}

// Puts a piece behind the first n bytes of a line, as far as there is room; how many there are then. By index: the library's copy becomes a
// call of memmove, which callers in C would have to bring, and which costs more than the few bytes of a short piece.
fn keep(line: &mut [u8], n: usize, piece: &[u8]) -> usize
    requires { n ≤ length line.old }
    ensures count { result ≡ min (n + length piece.now) (length line.old) }
    ensures bytes { take result line.new ≡ take (length line.old) (take n line.old ++ piece.now) }
{
    let k = piece.len().min(line.len() - n);
    for i in 0..k {
        line[n + i] = piece[i];
    }
    n + k
}

// Writes an answer's line from `at` on; how many bytes it has.
fn put(out: &mut [u8], at: usize, answer: Answer) -> usize
    requires { at + answer_room ≤ length out.old }
    ensures count { result ≡ length (printed answer) }
    ensures bytes { out.new ≡ put_at out.old at (printed answer) }
{
    lines::print(&mut out[at..], answer)
}

// Takes bytes of the input while there is room for one more answer in the buffer.
pub fn feed(
    s: &mut [u64; STORE],
    line: &mut [u8; LINE],
    n: usize,
    input: &[u8],
    out: &mut [u8],
) -> Fed
    ensures { Feeding (reading s.old line.old n) input.now out.old result s.new line.new out.new }
{
    let mut len = n.min(line.len());
    let mut taken = 0;
    let mut written = 0;
    // A turn is a line, and two tests in the middle end it: no iterator gives that.
    loop {
        if out.len() - written < ANSWER {
            return Fed {
                len,
                taken,
                written,
            };
        }
        let end = taken + lines::line_end(&input[taken..]);
        len = keep(line, len, &input[taken..end]);
        if end == input.len() {
            return Fed {
                len,
                taken: end,
                written,
            };
        }
        let a = engine::step(s, &line[..len]);
        written += put(out, written, a);
        taken = end + 1;
        len = 0;
    }
}

// At the end of the input: what follows the last newline is a line if it is not empty. How many bytes were written.
pub fn finish(
    s: &mut [u64; STORE],
    line: &mut [u8; LINE],
    n: usize,
    out: &mut [u8],
) -> Result<usize, NoRoom>
    ensures { Ending (reading s.old line.old n) n out.old result s.new line.new out.new }
{
    if n == 0 {
        return Ok(0);
    }
    let Fed { taken, written, .. } = feed(s, line, n, b"\n", out);
    if taken == 1 {
        Ok(written)
    } else {
        Err(NoRoom { written })
    }
}

// A whole input; how many bytes were written. Where the buffer has no room for all answers, as many lines are answered as surely fit.
pub fn whole(input: &[u8], out: &mut [u8]) -> Result<usize, NoRoom>
    ensures { Transcribed input.now out.old result out.new }
{
    let mut s = [0u64; STORE];
    let mut line = [0u8; LINE];
    let Fed {
        len,
        taken,
        written,
    } = feed(&mut s, &mut line, 0, input, out);
    if taken < input.len() {
        return Err(NoRoom { written });
    }
    match finish(&mut s, &mut line, len, &mut out[written..]) {
        Ok(more) => Ok(written + more),
        Err(no) => Err(NoRoom {
            written: written + no.written,
        }),
    }
}

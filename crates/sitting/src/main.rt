// Frames from standard input, answers to standard output, in constant memory.
#![tactic(auto)]

ghost use Rattle.std.specs.Prelude.{◌≡◌, MatchResult, Some, None};
ghost use Rattle.store.specs.View.{view};
ghost use Rattle.transcript.specs.View.{reading, Ending};
ghost use Rattle.sitting.specs.Turns.{Answered, Turned, Played, len_of};

use std::io;
use std::io::{Read, Stdin, Stdout};
use std::ops::ControlFlow;
use store::STORE;
use transcript::{LINE, NoRoom};

// How many bytes the buffer of a read has, and the buffer for answers.
const PIECE: usize = 65536;

// Feeds a piece of the input and writes the answers, as often as the buffer is full. How many bytes of the line under way there are then,
// and whether the input goes on. The place moves by as many bytes as were taken: there is nothing to iterate over.
fn answer(
    stdout: Stdout,
    s: &mut [u64; STORE],
    line: &mut [u8; LINE],
    n: usize,
    piece: &[u8],
    out: &mut [u8],
) -> ControlFlow<usize, usize>
    ensures { Answered (reading s.old line.old n) piece.now result (reading s.new line.new (len_of result)) }
{
    let mut len = n;
    let mut at = 0;
    while at < piece.len() {
        let f = transcript::feed(s, line, len, &piece[at..], out);
        len = f.len;
        let written = f.written;
        if stdout.write_all(&out[..written]).is_err() {
            return ControlFlow::Break(len);
        }
        if f.taken == 0 {
            return ControlFlow::Break(len);
        }
        at += f.taken;
    }
    ControlFlow::Continue(len)
}

// Answers a last line that has no newline.
fn end(
    stdout: Stdout,
    s: &mut [u64; STORE],
    line: &mut [u8; LINE],
    n: usize,
    out: &mut [u8],
) -> Result<usize, NoRoom>
    ensures { Ending (reading s.old line.old n) n out.old result s.new line.new out.new }
{
    let e = transcript::finish(s, line, n, out);
    let written = e.unwrap_or(0);
    let _ = stdout.write_all(&out[..written]);
    e
}

// What a read gave: how many bytes were read, none where it failed. A failed read is not the end of the input.
fn bytes_read(got: io::Result<usize>) -> Option<usize>
    ensures { MatchResult got (λ n. result ≡ Some n) (λ _. result ≡ None) }
{
    got.ok()
}

// What a read gave goes to the reader: that many bytes at the front of the input buffer, and never more than it has; none where it failed.
fn turn(
    stdout: Stdout,
    s: &mut [u64; STORE],
    line: &mut [u8; LINE],
    n: usize,
    input: &[u8],
    got: Option<usize>,
    out: &mut [u8],
) -> ControlFlow<usize, usize>
    ensures { Turned (reading s.old line.old n) n input.now out.old got result s.new line.new out.new }
{
    let Some(given) = got else {
        return ControlFlow::Break(n);
    };
    if given == 0 {
        let _ = end(stdout, s, line, n, out);
        return ControlFlow::Break(n);
    }
    let k = given.min(input.len());
    answer(stdout, s, line, n, &input[..k], out)
}

// Reads until the input ends, or a read or a write fails. A proved loop has to end, and nothing says that an input does: the turns are
// counted, to a number that no run reaches.
fn play(
    mut stdin: Stdin,
    stdout: Stdout,
    s: &mut [u64; STORE],
    line: &mut [u8; LINE],
    input: &mut [u8],
    out: &mut [u8],
)
    ensures { Played (reading s.old line.old 0) (view s.new) }
{
    let mut len = 0;
    for _ in 0..u64::MAX {
        let got = bytes_read(stdin.read(input));
        match turn(stdout, s, line, len, input, got, out) {
            ControlFlow::Continue(n) => len = n,
            ControlFlow::Break(_) => return,
        }
    }
}

fn main(rt: HostRuntime) {
    let mut input = [0u8; PIECE];
    let mut out = [0u8; PIECE];
    let mut s = [0u64; STORE];
    let mut line = [0u8; LINE];
    play(
        rt.stdin(),
        rt.stdout(),
        &mut s,
        &mut line,
        &mut input,
        &mut out,
    );
}

// The counts for the job in the first line of standard input, to standard output.
#![tactic(auto)]

ghost use Rattle.std.specs.Prelude.{◌≤◌, length};

use crashsets::ROOM;
use std::io::{Read, Stdin};

// How many bytes of the input are read: more than the longest frame has.
const PIECE: usize = 65536;

// Reads until the first line is there, the input ends or the buffer is full; how many bytes there are. A line that fills the buffer is
// too long for a frame, and so is its beginning.
fn read_line(mut stdin: Stdin, input: &mut [u8]) -> usize
    ensures { result ≤ length input.new }
{
    let mut n = 0;
    while let Ok(got) = stdin.read(&mut input[n..]) {
        let piece = &input[n..n + got];
        n += got;
        if got == 0 || piece.contains(&b'\n') {
            break;
        }
    }
    n
}

fn main(rt: HostRuntime) {
    let mut input = [0u8; PIECE];
    let mut out = [0u8; ROOM];
    let n = read_line(rt.stdin(), &mut input);
    let written = crashsets::survivors(&input[..n], &mut out);
    let _ = rt.write_all(&out[..written]);
}

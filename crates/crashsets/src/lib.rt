// Document 02, Point 8: how many sets of machines a job's layout survives, if all machines of the set crash at once.
#![tactic(auto)]

ghost use Rattle.std.specs.Prelude.{◌≡◌, true, ◌+◌, ◌<◌, ◌≤◌, length};
ghost use Rattle.arrays.specs.Copies.{put_at, Wrote};
ghost use Rattle.protocol.specs.Job.{job_in_range, job_of};
ghost use Rattle.protocol.specs.Parts.{start};
ghost use Rattle.protocol.specs.Step.{step};
ghost use Rattle.frames.specs.Decode.{decoded};
ghost use Rattle.crashsets.specs.CrashSets.{field, count_line, counts, reported, survivors};
ghost use Rattle.crashsets.specs.Digits.{ROOM};

use crate::sets::{Counts, count};
use frames::Frame;
use protocol::{Answer, Refusal};

mod sets;

// Room for all that is printed: six lines of eight bytes.
pub const ROOM: usize = 48;

// Puts a number of one or two digits and the byte behind it at a place of the buffer; where they end. Not by `write!`, which says what it
// wrote of a `String` alone: there is no heap here.
fn put_number(out: &mut [u8], at: usize, n: u8, behind: u8) -> usize
    requires { (at + 3 ≤ length out.old) × (n < 100) }
    ensures end { result ≡ at + length (field n behind) }
    ensures bytes { out.new ≡ put_at out.old at (field n behind) }
{
    if n < 10 {
        out[at] = b'0' + n;
        out[at + 1] = behind;
        return at + 2;
    }
    out[at] = b'0' + n / 10;
    out[at + 1] = b'0' + n % 10;
    out[at + 2] = behind;
    at + 3
}

// Puts the line of f.
fn put_line(out: &mut [u8], at: usize, f: u8, total: u8, survived: u8) -> usize
    requires { (at + 8 ≤ length out.old) × (f < 10) × (total < 100) × (survived < 100) }
    ensures end { result ≡ at + length (count_line f total survived) }
    ensures bytes { out.new ≡ put_at out.old at (count_line f total survived) }
{
    let first = put_number(out, at, f, b' ');
    let second = put_number(out, first, total, b' ');
    put_number(out, second, survived, b'\n')
}

// Writes the lines of a job to the front of the buffer; how many bytes they are.
fn write_counts(line: &[u8], out: &mut [u8]) -> usize
    requires line_value { job_in_range (decoded line.now) ≡ true }
    requires in_bounds { ROOM ≤ length out.old }
    ensures { Wrote out.old (counts (job_of (decoded line.now))) result out.new }
{
    let machines = frames::byte(line, 1);
    let mut written = 0;
    for f in 1..=machines {
        let Counts { total, survived } = count(line, f);
        written = put_line(out, written, f, total, survived);
    }
    written
}

// What a first line gets: the lines of the job, or the number of the question that refuses it.
fn write_report(line: &[u8], out: &mut [u8]) -> usize
    requires { ROOM ≤ length out.old }
    ensures { Wrote out.old (reported (step start line.now)) result out.new }
{
    let refusal = match frames::read(line) {
        None => Refusal::Garbled,
        Some(Frame::Job) if jobline::job_in_range(line) => return write_counts(line, out),
        Some(Frame::Job) => Refusal::OutOfRange,
        Some(_) => Refusal::Job,
    };
    lines::print(out, Answer::Refused(refusal.number()))
}

// Writes what is printed for an input to the front of a buffer; how many bytes it is.
pub fn survivors(input: &[u8], out: &mut [u8; ROOM]) -> usize
    ensures wrote { Wrote out.old (survivors input.now) result out.new }
    ensures size { length out.new ≡ ROOM }
{
    if input.is_empty() {
        return 0;
    }
    let end = lines::line_end(input);
    write_report(&input[..end], out)
}

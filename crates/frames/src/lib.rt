// From a line of hexadecimal digits to a frame. The digits are read where they stand: nothing is copied.
#![tactic(auto)]

ghost use Rattle.std.specs.Prelude.{◌≡◌, ◌<◌, ◌/◌, true, false, length, get_or, MatchOption};
ghost use Rattle.protocol.specs.Frames.{frame};
ghost use Rattle.frames.specs.Decode.{decoded, digit_value, is_digit, is_hexadecimal, is_pair};
ghost use Rattle.frames.specs.Read.{read_as, job_as, behind_kind, Sized};

// The least length of each kind of frame, by kind; 0 is no kind.
const LEAST: [u8; 24] = [
    0, 3, 0, 0, 0, 0, 0, 0, 0, 0, 0, 0, 0, 0, 0, 0, 5, 6, 2, 2, 2, 2, 2, 2,
];

#[derive(Clone, Copy)]
pub enum Frame {
    Job,
    Inject {
        chare: u8,
        value: u16,
        hops: u8,
    },
    Deliver {
        kind: u8,
        sender: u8,
        receiver: u8,
        sn: u16,
    },
    Work(u8),
    Checkpoint(u8),
    Crash(u8),
    Restart(u8),
    Show(u8),
    Withdraw(u8),
}

// The value of a digit of either case. Not a match on three ranges, each of which the compiler would leave as two tests: a refused job line
// then takes two fifths longer.
fn digit(x: u8) -> Option<u8>
    ensures { MatchOption result (is_digit x ≡ false) (λ v. (is_digit x ≡ true) × (v ≡ digit_value x) × (v < 16)) }
{
    if (b'0'..=b'9').contains(&x) {
        Some(x - b'0')
    } else if (b'A'..=b'F').contains(&x) {
        Some(x - b'A' + 10)
    } else if (b'a'..=b'f').contains(&x) {
        Some(x - b'a' + 10)
    } else {
        None
    }
}

// The byte of the two digits at `i`; None where one of the two is no digit.
fn pair(line: &[u8], i: usize) -> Option<u8>
    requires { i < length line.now / 2 }
    ensures { MatchOption result (is_pair line.now i ≡ false) (λ v. (is_pair line.now i ≡ true) × (v ≡ get_or (decoded line.now) i 0)) }
{
    let high = digit(line[2 * i])?;
    let low = digit(line[2 * i + 1])?;
    Some(high * 16 + low)
}

// The byte at `i`, 0 past the end; a character that is no digit counts as 0.
pub fn byte(line: &[u8], i: usize) -> u8
    ensures { result ≡ get_or (decoded line.now) i 0 }
{
    if i < line.len() / 2 {
        digit(line[2 * i]).unwrap_or(0) * 16 + digit(line[2 * i + 1]).unwrap_or(0)
    } else {
        0
    }
}

fn is_hexadecimal(line: &[u8]) -> bool
    ensures { result ≡ is_hexadecimal line.now }
{
    line.len() % 2 == 0 && line.iter().all(|x| digit(*x).is_some())
}

// Kind 01: its bytes stay in the line, and its length is told by two of them.
fn job(line: &[u8], least: u8) -> Option<Frame>
    ensures { result ≡ job_as line.now least }
{
    if !is_hexadecimal(line) {
        return None;
    }
    let machines = byte(line, 1) as usize;
    let chares = byte(line, 2) as usize;
    if line.len() / 2 == least as usize + machines + 3 * chares {
        Some(Frame::Job)
    } else {
        None
    }
}

fn inject(line: &[u8]) -> Option<Frame>
    requires { length line.now ≡ 10 }
    ensures { result ≡ read_as (behind_kind line.now 0x10) }
{
    let chare = pair(line, 1)?;
    let value = u16::from_be_bytes([pair(line, 2)?, pair(line, 3)?]);
    let hops = pair(line, 4)?;
    Some(Frame::Inject { chare, value, hops })
}

fn deliver(line: &[u8]) -> Option<Frame>
    requires { length line.now ≡ 12 }
    ensures { result ≡ read_as (behind_kind line.now 0x11) }
{
    let kind = pair(line, 1)?;
    let sender = pair(line, 2)?;
    let receiver = pair(line, 3)?;
    let sn = u16::from_be_bytes([pair(line, 4)?, pair(line, 5)?]);
    Some(Frame::Deliver {
        kind,
        sender,
        receiver,
        sn,
    })
}

// The kinds of one field, by the number that a frame begins with.
fn single(line: &[u8], kind: u8) -> Option<Frame>
    requires line_len { length line.now ≡ 4 }
    requires lt_kind { 0x11 < kind }
    ensures { result ≡ read_as (behind_kind line.now kind) }
{
    let x = pair(line, 1)?;
    match kind {
        0x12 => Some(Frame::Work(x)),
        0x13 => Some(Frame::Checkpoint(x)),
        0x14 => Some(Frame::Crash(x)),
        0x15 => Some(Frame::Restart(x)),
        0x16 => Some(Frame::Show(x)),
        0x17 => Some(Frame::Withdraw(x)),
        _ => None,
    }
}

// Any kind but 01. Not in `read`, where these calls stand behind so many tests that the compiler leaves them calls.
fn fields(line: &[u8], kind: u8) -> Option<Frame>
    requires { Sized (length line.now) kind }
    ensures { result ≡ read_as (behind_kind line.now kind) }
{
    match kind {
        0x10 => inject(line),
        0x11 => deliver(line),
        _ => single(line, kind),
    }
}

// The frame of a line; None is garbled.
pub fn read(line: &[u8]) -> Option<Frame>
    ensures { result ≡ read_as (frame line.now) }
{
    if line.len() < 2 {
        return None;
    }
    let kind = pair(line, 0)?;
    if 23 < kind {
        return None;
    }
    let least = LEAST[kind as usize];
    if kind == 1 {
        return job(line, least);
    }
    if line.len() != 2 * least as usize {
        return None;
    }
    fields(line, kind)
}

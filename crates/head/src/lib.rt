// The head of the store: the job's numbers, the machines and the targets, one word each, read for a head of any contents.
// Every function takes a head, or a store that begins with one, so each asks for the length: a crash lends the words before the wire, all
// others the store, and an array type says one length alone. A struct around the slice would be made and unmade at each call.
#![tactic(auto)]

ghost use Rattle.std.specs.Prelude.{◌≡◌, not, [], ◌∷◌, ◌+◌, ◌≤◌, leb, length};
ghost use Rattle.lists.specs.Questions.{◌asks◌, first_no};
ghost use Rattle.arrays.specs.ArrayMap.{as_map};
ghost use Rattle.protocol.specs.Parts.{on};
ghost use Rattle.protocol.specs.Sending.{is_local};
ghost use Rattle.protocol.specs.Packets.{destination};
ghost use Rattle.protocol.specs.Frames.{between};
ghost use Rattle.protocol.specs.Numbers.{refusal_of};
ghost use Rattle.words.specs.Part.{part};
ghost use Rattle.head.specs.Head.{HEAD, cell, job_of, lost_of, status_of, held_of, target_of, runs, chare_asked};

use protocol::{Kind, Refusal, Status};

// Where each part begins.
pub const SET: usize = 0;

pub const LOST: usize = 1;

pub const MACHINES: usize = 2;

pub const CHARES: usize = 3;

pub const BUDDY: usize = 4;

pub const STATUS: usize = BUDDY + 7;

pub const HELD: usize = STATUS + 7;

pub const HOME: usize = HELD + 7;

pub const FIRST: usize = HOME + 13;

pub const SECOND: usize = FIRST + 13;

pub const TARGET: usize = SECOND + 13;

pub const HEAD: usize = TARGET + 13;

pub fn is_set(h: &[u64]) -> bool
    requires { HEAD ≤ length h.now }
    ensures { result ≡ (job_of h.now).set }
{
    h[SET] == 1
}

pub fn is_lost(h: &[u64]) -> bool
    requires { HEAD ≤ length h.now }
    ensures { result ≡ lost_of h.now }
{
    h[LOST] == 1
}

pub fn machines(h: &[u64]) -> u8
    requires { HEAD ≤ length h.now }
    ensures is { result ≡ (job_of h.now).machines }
    ensures small { result ≤ 6 }
{
    h[MACHINES].min(6) as u8
}

pub fn chares(h: &[u64]) -> u8
    requires { HEAD ≤ length h.now }
    ensures is { result ≡ (job_of h.now).chares }
    ensures small { result ≤ 12 }
{
    h[CHARES].min(12) as u8
}

// The word at k of the part of n words from a on; 0 past its end.
fn word(h: &[u64], a: usize, n: usize, k: u8) -> u64
    requires { a + n ≤ length h.now }
    ensures { result ≡ as_map 0 (part a n h.now) k }
{
    h[a..a + n].get(k as usize).copied().unwrap_or(0)
}

// The same as a number of a job: at most m, and 0 at 0.
fn cell(h: &[u64], a: usize, n: usize, m: u64, k: u8) -> u64
    requires { a + n ≤ length h.now }
    ensures is { result ≡ cell m (part a n h.now) k }
    ensures small { result ≤ m }
{
    if k == 0 {
        return 0;
    }
    word(h, a, n, k).min(m)
}

// The four below are `cell` at the places of a job's numbers: the names are those of the definitions' job.
pub fn buddy(h: &[u64], p: u8) -> u8
    requires { HEAD ≤ length h.now }
    ensures is { result ≡ (job_of h.now).buddy p }
    ensures small { result ≤ 6 }
{
    cell(h, BUDDY, 7, 6, p) as u8
}

pub fn home(h: &[u64], c: u8) -> u8
    requires { HEAD ≤ length h.now }
    ensures is { result ≡ (job_of h.now).home c }
    ensures small { result ≤ 6 }
{
    cell(h, HOME, 13, 6, c) as u8
}

pub fn first(h: &[u64], c: u8) -> u8
    requires { HEAD ≤ length h.now }
    ensures is { result ≡ (job_of h.now).first c }
    ensures small { result ≤ 12 }
{
    cell(h, FIRST, 13, 12, c) as u8
}

pub fn second(h: &[u64], c: u8) -> u8
    requires { HEAD ≤ length h.now }
    ensures is { result ≡ (job_of h.now).second c }
    ensures small { result ≤ 12 }
{
    cell(h, SECOND, 13, 12, c) as u8
}

pub fn target(h: &[u64], c: u8) -> u64
    requires { HEAD ≤ length h.now }
    ensures { result ≡ target_of h.now c }
{
    word(h, TARGET, 13, c)
}

pub fn is_held(h: &[u64], p: u8) -> bool
    requires { HEAD ≤ length h.now }
    ensures { result ≡ held_of h.now p }
{
    word(h, HELD, 7, p) == 1
}

pub fn status(h: &[u64], p: u8) -> Status
    requires { HEAD ≤ length h.now }
    ensures { result ≡ status_of h.now p }
{
    match word(h, STATUS, 7, p) {
        0 => Status::Up,
        1 => Status::Down,
        _ => Status::CatchingUp,
    }
}

// Catching up is up; the desk, number 0, always is.
pub fn is_up(h: &[u64], p: u8) -> bool
    requires { HEAD ≤ length h.now }
    ensures { result ≡ runs (status_of h.now) p }
{
    p == 0 || status(h, p) != Status::Down
}

// Chare `c` is on machine `p`.
pub fn on(h: &[u64], p: u8, c: u8) -> bool
    requires { HEAD ≤ length h.now }
    ensures { result ≡ on (job_of h.now) p c }
{
    home(h, c) == p
}

// `a` and `b` are on one machine; the desk is local to nobody.
pub fn is_local(h: &[u64], a: u8, b: u8) -> bool
    requires { HEAD ≤ length h.now }
    ensures { result ≡ is_local (job_of h.now) a b }
{
    a != 0 && home(h, a) == home(h, b)
}

// The machine that a packet of a kind goes to. The kind may be any byte: one that is no kind goes to the receiver, as DATA does.
pub fn destination(h: &[u64], kind: u8, sender: u8, receiver: u8) -> u8
    requires { HEAD ≤ length h.now }
    ensures { result ≡ destination (job_of h.now) kind sender receiver }
{
    match Kind::try_from(kind).unwrap_or(Kind::Data) {
        Kind::Grant => home(h, sender),
        Kind::Note => buddy(h, home(h, receiver)),
        Kind::Ask | Kind::Data | Kind::Ack => home(h, receiver),
    }
}

pub fn is_machine(h: &[u64], p: u8) -> bool
    requires { HEAD ≤ length h.now }
    ensures { result ≡ between 1 (job_of h.now).machines p }
{
    (1..=machines(h)).contains(&p)
}

pub fn is_chare(h: &[u64], c: u8) -> bool
    requires { HEAD ≤ length h.now }
    ensures { result ≡ between 1 (job_of h.now).chares c }
{
    (1..=chares(h)).contains(&c)
}

pub fn is_sender(h: &[u64], c: u8) -> bool
    requires { HEAD ≤ length h.now }
    ensures { result ≡ leb c (job_of h.now).chares }
{
    c <= chares(h)
}

// The questions 2 to 5: the first that is answered "no".
pub fn first_no(set: bool, in_range: bool, lost: bool, up: bool) -> Result<(), Refusal>
    ensures { refusal_of result ≡ first_no (2 asks set ∷ 3 asks in_range ∷ 4 asks not lost ∷ 5 asks up ∷ []) }
{
    if !set {
        Err(Refusal::Job)
    } else if !in_range {
        Err(Refusal::OutOfRange)
    } else if lost {
        Err(Refusal::LostRun)
    } else if !up {
        Err(Refusal::NotUp)
    } else {
        Ok(())
    }
}

// These questions of a frame on chare `c`.
pub fn judge_chare(h: &[u64], c: u8) -> Result<(), Refusal>
    requires { HEAD ≤ length h.now }
    ensures { refusal_of result ≡ first_no (chare_asked (job_of h.now) (lost_of h.now) (status_of h.now) c) }
{
    let p = home(h, c);
    first_no(is_set(h), is_chare(h, c), is_lost(h), is_up(h, p))
}

// The head alone, for a caller that changes the store meanwhile.
pub fn copy(h: &[u64]) -> [u64; HEAD]
    requires { HEAD ≤ length h.now }
    ensures { result ≡ part 0 HEAD h.now }
{
    let mut a = [0; HEAD];
    a.copy_from_slice(&h[..HEAD]);
    a
}

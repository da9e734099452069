// Frame 01 in place: a job's line becomes the store.
#![tactic(auto)]

ghost use Rattle.std.specs.Prelude.{◌≡◌, true, ◌≤◌, ◌<◌, ℕ, length};
ghost use Rattle.protocol.specs.Job.{has_machine, job_in_range, begin as begun};
ghost use Rattle.protocol.specs.Numbers.{answered};
ghost use Rattle.protocol.specs.Questions.{job_questions};
ghost use Rattle.frames.specs.Decode.{decoded};
ghost use Rattle.words.specs.Fields.{bit};
ghost use Rattle.head.specs.Head.{HEAD};
ghost use Rattle.head.specs.Cells.{Filled};
ghost use Rattle.memory.specs.Places.{MEMORY};
ghost use Rattle.memory.specs.View.{memory_view};
ghost use Rattle.store.specs.View.{view, tried, Framed};
ghost use Rattle.opening.specs.Words.{Gives, numbered, Written};
ghost use Rattle.opening.specs.States.{with_state, started, all_started};

use head::{BUDDY, CHARES, FIRST, HEAD, HELD, HOME, MACHINES, SECOND, SET};
use jobline::Number;
use memory::{MEMORY, STATE};
use protocol::{Refusal, Rule};
use store::{COPY, LIVE, STORE};

// 1 for a machine of the job: each starts with a copy.
fn held_of(line: &[u8], p: u8) -> u8
    ensures { result ≡ bit (has_machine (decoded line.now) p) }
{
    u8::from((1..=frames::byte(line, 1)).contains(&p))
}

// Writes a part of the head: at k the number that is given for k.
fn fill<F: Fn(u8) -> u8>(part: &mut [u64], number: F)
    requires long { length part.old ≤ 13 }
    requires callable { F.IsAlwaysCallable number }
    ensures { (f : ℕ → ℕ) → Gives f (F.post number) → Filled f part.new (length part.old) }
{
    for (k, word) in part.iter_mut().enumerate() {
        *word = number(k as u8) as u64;
    }
}

fn write_numbers(h: &mut [u64], line: &[u8])
    requires { length h.old ≡ HEAD }
    ensures { h.new ≡ numbered (decoded line.now) }
{
    words::clear(h);
    h[SET] = 1;
    h[MACHINES] = frames::byte(line, 1) as u64;
    h[CHARES] = frames::byte(line, 2) as u64;
}

fn write_head(h: &mut [u64], line: &[u8])
    requires { length h.old ≡ HEAD }
    ensures { Written (decoded line.now) h.new }
{
    write_numbers(h, line);
    fill(&mut h[BUDDY..BUDDY + 7], |p| jobline::buddy_of(line, p));
    fill(&mut h[HELD..HELD + 7], |p| held_of(line, p));
    fill(
        &mut h[HOME..HOME + 13],
        |c| jobline::number_of(line, Number::Home as u8, c),
    );
    fill(
        &mut h[FIRST..FIRST + 13],
        |c| jobline::number_of(line, Number::First as u8, c),
    );
    fill(
        &mut h[SECOND..SECOND + 13],
        |c| jobline::number_of(line, Number::Second as u8, c),
    );
}

fn write_state(m: &mut [u64], c: u8)
    requires { length m.old ≡ MEMORY }
    ensures { memory_view m.new ≡ with_state (memory_view m.old) c }
{
    m[STATE] = c as u64;
}

// Chare c's state is its number, in its memory and in its copy.
fn start_chare(s: &mut [u64; STORE], c: u8)
    requires { c < 13 }
    ensures { view s.new ≡ started (view s.old) c }
{
    let a = LIVE + (c as usize) * MEMORY;
    let e = a + MEMORY;
    write_state(&mut s[a..e], c);
    let b = COPY + (c as usize) * MEMORY;
    let f = b + MEMORY;
    write_state(&mut s[b..f], c);
}

fn start_chares(s: &mut [u64; STORE], n: u8)
    requires { n ≤ 12 }
    ensures { view s.new ≡ all_started (view s.old) n }
{
    for c in 1..=n {
        start_chare(s, c);
    }
}

fn begin(s: &mut [u64; STORE], line: &[u8])
    requires { job_in_range (decoded line.now) ≡ true }
    ensures { view s.new ≡ begun (decoded line.now) }
{
    words::clear(s);
    write_head(&mut s[0..HEAD], line);
    start_chares(s, frames::byte(line, 2));
}

// Frame 01.
pub fn job(s: &mut [u64; STORE], line: &[u8]) -> Result<Rule, Refusal>
    ensures { Framed s.old s.new (answered result) (tried (view s.old) (job_questions (view s.old) (decoded line.now)) (begun (decoded line.now))) }
{
    if head::is_set(s) {
        return Err(Refusal::Job);
    }
    if !jobline::job_in_range(line) {
        return Err(Refusal::OutOfRange);
    }
    if head::is_lost(s) {
        return Err(Refusal::LostRun);
    }
    begin(s, line);
    Ok(Rule::Other)
}

// Frame 14: a crash of a machine. Its memory goes, with the copies and notes that it keeps of others and the packets on their way to it.
#![tactic(auto)]

ghost use Rattle.std.specs.Prelude.{◌≡◌, ◌<◌};
ghost use Rattle.lists.specs.Questions.{put_all, first_no};
ghost use Rattle.protocol.specs.Setters.{with_live, with_copies, with_wire};
ghost use Rattle.protocol.specs.Crash.{has_cover, crash};
ghost use Rattle.protocol.specs.Numbers.{refusal_of, given_answer, NotRefused};
ghost use Rattle.protocol.specs.Questions.{crash_questions};
ghost use Rattle.protocol.specs.Step.{judged};
ghost use Rattle.store.specs.View.{view, Framed};
ghost use Rattle.crash.specs.Whole.{crash_tried};

use head::{HELD, LOST, STATUS};
use memory::MEMORY;
use protocol::{Answer, Refusal, Rule, Status};
use store::{COPY, LIVE, NOTELIST, NOTES, STORE, WIRE};

// No machine is down or catching up, and p's buddy holds p's copy.
fn has_cover(s: &[u64; STORE], p: u8) -> bool
    ensures { result ≡ has_cover (view s.now) p }
{
    (1..=head::machines(s)).all(|q| head::status(s, q) == Status::Up) && head::is_held(s, p)
}

// The memories of the chares on machine p go.
fn lose_live(s: &mut [u64; STORE], p: u8)
    ensures { view s.new ≡ with_live (view s.old) (crash (view s.old) p).live }
{
    for c in 0..13 {
        if head::on(s, p, c) {
            let a = LIVE + (c as usize) * MEMORY;
            s[a..a + MEMORY].fill(0);
        }
    }
}

// The copies that machine p keeps go.
fn lose_copies(s: &mut [u64; STORE], p: u8)
    ensures { view s.new ≡ with_copies (view s.old) (view s.old).held (crash (view s.old) p).copy (view s.old).notes }
{
    for c in 0..13 {
        let h = head::home(s, c);
        if head::buddy(s, h) == p {
            let a = COPY + (c as usize) * MEMORY;
            s[a..a + MEMORY].fill(0);
        }
    }
}

// Those machines have no copy and no notes any more.
fn lose_notes(s: &mut [u64; STORE], p: u8)
    ensures { view s.new ≡ with_copies (view s.old) (crash (view s.old) p).held (view s.old).copy (crash (view s.old) p).notes }
{
    for q in 0..7 {
        if head::buddy(s, q) == p {
            let i = q as usize;
            s[HELD + i] = 0;
            let a = NOTES + i * NOTELIST;
            notelist::empty(&mut s[a..a + NOTELIST]);
        }
    }
}

// The packets to machine p go, and its GRANTs and NOTEs.
fn lose_packets(s: &mut [u64; STORE], p: u8)
    ensures { view s.new ≡ with_wire (view s.old) (crash (view s.old) p).wire }
{
    let (h, wire) = s.split_at_mut(WIRE);
    packets::after_crash(wire, h, p);
}

// A crash with cover.
fn go_down(s: &mut [u64; STORE], p: u8)
    requires { p < 7 }
    ensures { view s.new ≡ crash (view s.old) p }
{
    s[STATUS + p as usize] = 1;
    lose_live(s, p);
    lose_copies(s, p);
    lose_notes(s, p);
    lose_packets(s, p);
}

// The questions: the first that is answered "no".
fn judge(s: &[u64; STORE], p: u8) -> Result<(), Refusal>
    ensures { refusal_of result ≡ first_no (crash_questions (view s.now) p) }
{
    head::first_no(
        head::is_set(s),
        head::is_machine(s, p),
        head::is_lost(s),
        head::is_up(s, p),
    )
}

// Kept out of the loop over lines: a call of the reader would compute the places of all memories first, however short its piece.
#[inline(never)]
pub fn crash(s: &mut [u64; STORE], p: u8) -> Result<Answer, Refusal>
    ensures framed { Framed s.old s.new (given_answer result) (judged (view s.old) (put_all (crash_questions (view s.old) p) (crash_tried (view s.old) p (has_cover (view s.old) p)))) }
    ensures ok { NotRefused result }
{
    judge(s, p)?;
    if !has_cover(s, p) {
        s[LOST] = 1;
        return Ok(Answer::Lost);
    }
    go_down(s, p);
    Ok(Answer::Accepted(Rule::Other))
}

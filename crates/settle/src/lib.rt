// The end of catching up, and frame 16, in place.
#![tactic(auto)]

ghost use Rattle.std.specs.Prelude.{◌≡◌, ◌≤◌, ◌<◌};
ghost use Rattle.lists.specs.Questions.{put_all};
ghost use Rattle.protocol.specs.Setters.{with_status};
ghost use Rattle.protocol.specs.Parts.{at_home};
ghost use Rattle.protocol.specs.Numbers.{given_answer, NotRefused};
ghost use Rattle.protocol.specs.Questions.{show_questions};
ghost use Rattle.protocol.specs.Restart.{has_caught_up, is_done, settle_machine, settle};
ghost use Rattle.protocol.specs.Step.{judged};
ghost use Rattle.store.specs.View.{view, outcome};
ghost use Rattle.settle.specs.Done.{passes};
ghost use Rattle.settle.specs.Shown.{shown};

use head::{STATUS, TARGET};
use memory::{LOG, MEMORY};
use protocol::{Answer, Refusal, Status};
use store::{LIVE, STORE};

// Chare c has worked all that it had to, and its log has no message without a TN.
// Kept out of the loop over lines: a call of the reader would compute the places of all memories first, however short its piece.
#[inline(never)]
fn has_caught_up(s: &[u64; STORE], c: u8) -> bool
    requires { c < 13 }
    ensures { result ≡ has_caught_up (view s.now) c }
{
    let a = LIVE + (c as usize) * MEMORY;
    let m = &s[a..a + MEMORY];
    head::target(s, c) <= memory::height(m) as u64 && logs::all_ticketed(&m[LOG..MEMORY])
}

// The same, or not on machine p.
fn passes(s: &[u64; STORE], p: u8, c: u8) -> bool
    requires { c < 13 }
    ensures { result ≡ passes (view s.now) p c }
{
    !head::on(s, p, c) || has_caught_up(s, c)
}

fn is_done(s: &[u64; STORE], p: u8) -> bool
    ensures { result ≡ is_done (view s.now) p }
{
    head::status(s, p) == Status::CatchingUp && (1..=12).all(|c| passes(s, p, c))
}

// The targets of the chares on machine p become 0.
fn drop_targets(s: &mut [u64; STORE], p: u8)
    ensures { view s.new ≡ with_status (view s.old) (view s.old).status (at_home (view s.old).job p (λ c t. 0) (view s.old).target) }
{
    for c in 0..13 {
        if head::on(s, p, c) {
            s[TARGET + c as usize] = 0;
        }
    }
}

fn settle_machine(s: &mut [u64; STORE], p: u8)
    requires { p ≤ 6 }
    ensures { view s.new ≡ settle_machine (view s.old) p }
{
    if is_done(s, p) {
        s[STATUS + p as usize] = 0;
        drop_targets(s, p);
    }
}

// Machines that have caught up are catching up no longer.
pub fn settle(s: &mut [u64; STORE])
    ensures { view s.new ≡ settle (view s.old) }
{
    for p in 1..=head::machines(s) {
        settle_machine(s, p);
    }
}

// Frame 16.
pub fn show(s: &[u64; STORE], c: u8) -> Result<Answer, Refusal>
    ensures shown { outcome s.now (given_answer result) ≡ judged (view s.now) (put_all (show_questions (view s.now) c) (shown (view s.now) c)) }
    ensures ok { NotRefused result }
{
    head::judge_chare(s, c)?;
    let a = LIVE + (c as usize) * MEMORY;
    let m = &s[a..a + MEMORY];
    Ok(Answer::Shown {
        height: memory::height(m),
        state: memory::state(m),
    })
}

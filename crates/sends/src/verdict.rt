// The questions 7 to 11 of a work, put to plans.
ghost use Rattle.std.specs.Prelude.{◌≡◌, [], ◌∷◌, ◌<◌, leb};
ghost use Rattle.sends.specs.Sends.{one_verdict, two_verdict};
ghost use Rattle.lists.specs.Questions.{◌asks◌, first_no};
ghost use Rattle.protocol.specs.Numbers.{refusal_of};

use crate::plan::Plan;
use protocol::Refusal;

// The questions 7 to 11 of a work: the first that is answered "no".
fn answer(fits: bool, admits: bool, log: u8, room: bool, wire: u8) -> Result<(), Refusal>
    ensures { refusal_of result ≡ first_no (7 asks fits ∷ 8 asks admits ∷ 9 asks leb log 16 ∷ 10 asks room ∷ 11 asks leb wire 128 ∷ []) }
{
    if !fits {
        Err(Refusal::TooHigh)
    } else if !admits {
        Err(Refusal::BeyondWindow)
    } else if 16 < log {
        Err(Refusal::LogFull)
    } else if !room {
        Err(Refusal::TableFull)
    } else if 128 < wire {
        Err(Refusal::WireFull)
    } else {
        Ok(())
    }
}

// The first "no" of the questions 7 to 11 for one send, with what the sender's log and the wire hold before it. Not a list of plans, here
// and in what sends: there are one or two, and the second is planned as if the first were made.
pub fn one_verdict(p: Plan, log: u8, wire: u8) -> Result<(), Refusal>
    requires { (log < 17) × (wire < 129) }
    ensures { refusal_of result ≡ one_verdict p log wire }
{
    let k = p.ticket;
    answer(k.fits(), p.admits, log + 1, p.room, wire + k.growth())
}

// The same for two sends: each question is put to both before the next.
pub fn two_verdict(p: Plan, q: Plan, log: u8, wire: u8) -> Result<(), Refusal>
    requires { (log < 17) × (wire < 129) }
    ensures { refusal_of result ≡ two_verdict p q log wire }
{
    let j = p.ticket;
    let k = q.ticket;
    answer(
        j.fits() && k.fits(),
        p.admits && q.admits,
        log + 2,
        p.room && q.room,
        wire + j.growth() + k.growth(),
    )
}

// One step in place: any store and the bytes of any line.
#![tactic(auto)]

ghost use Rattle.std.specs.Prelude.{◌≡◌};
ghost use Rattle.protocol.specs.Numbers.{given_answer, NotRefused};
ghost use Rattle.protocol.specs.Step.{step};
ghost use Rattle.store.specs.View.{view, Framed};
ghost use Rattle.engine.specs.Play.{settles};
ghost use Rattle.engine.specs.Dispatch.{acted};

use frames::Frame;
use protocol::{Answer, Refusal};
use store::STORE;

// A frame, read from a line, before machines settle.
fn act(s: &mut [u64; STORE], f: Frame, line: &[u8]) -> Result<Answer, Refusal>
    ensures framed { Framed s.old s.new (given_answer result) (acted (view s.old) line.now f) }
    ensures only { NotRefused result }
{
    let rule = match f {
        Frame::Job => opening::job(s, line)?,
        Frame::Inject { chare, value, hops } => sends::inject(s, chare, value, hops)?,
        Frame::Deliver {
            kind,
            sender,
            receiver,
            sn,
        } => deliver::deliver(s, kind, sender, receiver, sn)?,
        Frame::Work(chare) => sends::work(s, chare)?,
        Frame::Checkpoint(machine) => checkpoint::checkpoint(s, machine)?,
        Frame::Crash(machine) => return crash::crash(s, machine),
        Frame::Restart(machine) => restart::restart(s, machine)?,
        Frame::Show(chare) => return settle::show(s, chare),
        Frame::Withdraw(chare) => withdraw::withdraw(s, chare)?,
    };
    Ok(Answer::Accepted(rule))
}

fn is_accepted(a: Answer) -> bool
    ensures { result ≡ settles a }
{
    match a {
        Answer::Accepted(_) | Answer::Shown { .. } => true,
        Answer::Lost | Answer::Refused(_) => false,
    }
}

// After an accepted frame, machines that have caught up are catching up no longer.
pub fn step(s: &mut [u64; STORE], line: &[u8]) -> Answer
    ensures { Framed s.old s.new result (step (view s.old) line.now) }
{
    let Some(frame) = frames::read(line) else {
        return Answer::Refused(Refusal::Garbled.number());
    };
    match act(s, frame, line) {
        Ok(answer) => {
            if is_accepted(answer) {
                settle::settle(s);
            }
            answer
        }
        Err(refusal) => Answer::Refused(refusal.number()),
    }
}

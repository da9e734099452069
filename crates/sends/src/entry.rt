// An entry's message worked: the five words of the memory afterwards, or the question that refuses it.
ghost use Rattle.sends.specs.Worked.{WorkedAs};

use memory::Numbers;
use protocol::{Entry, Refusal};
use window::Slid;

pub fn work_entry(x: Numbers, e: Entry) -> Result<Numbers, Refusal>
    ensures { WorkedAs x e result }
{
    if !e.received || !e.noted {
        return Err(Refusal::Missing);
    }
    let height = (x.height % 65536) as u16;
    if 60000 <= height {
        return Err(Refusal::TooHigh);
    }
    let before = (x.mark % 65536) as u16;
    let Slid { mark, window } = window::take_in(before, x.window, e.sn);
    if 60000 < mark {
        return Err(Refusal::TooHigh);
    }
    let state = (x.state % 4294967296) as u32;
    Ok(Numbers {
        state: window::work(state, e.value) as u64,
        height: height as u64 + 1,
        mark: mark as u64,
        window,
    })
}

// A chare's memory: 101 words, lent and changed in place. It comes as a slice of the store, and each function asks for its length: of a
// function that lends a part of a slice as an array no proof is found, and to make an array at each call (`as_mut_array`, `unwrap`) is no
// plainer.
#![tactic(auto)]

ghost use Rattle.std.specs.Prelude.{◌≡◌, ◌<◌, length};
ghost use Rattle.protocol.specs.Packets.{seen};
ghost use Rattle.window.specs.Bits.{window_bits};
ghost use Rattle.memory.specs.Places.{MEMORY};
ghost use Rattle.memory.specs.View.{memory_view};
ghost use Rattle.memory.specs.Numbers.{taken, given};

use protocol::Seen;
use window::bits::Window;

// Where the parts begin.
pub const STATE: usize = 0;

pub const HEIGHT: usize = 1;

pub const TOP: usize = 2;

pub const SN: usize = 3;

pub const MARK: usize = SN + 16;

// The low and the high words of the windows.
pub const LOW: usize = MARK + 16;

pub const HIGH: usize = LOW + 16;

pub const TABLE: usize = HIGH + 16;

pub const ROW: usize = 17;

pub const LOG: usize = TABLE + ROW;

pub const MEMORY: usize = LOG + ROW;

pub fn state(m: &[u64]) -> u32
    requires { length m.now ≡ MEMORY }
    ensures { result ≡ (memory_view m.now).state }
{
    (m[STATE] % 4294967296) as u32
}

pub fn height(m: &[u64]) -> u16
    requires { length m.now ≡ MEMORY }
    ensures { result ≡ (memory_view m.now).height }
{
    (m[HEIGHT] % 65536) as u16
}

pub fn top(m: &[u64]) -> u16
    requires { length m.now ≡ MEMORY }
    ensures { result ≡ (memory_view m.now).highest_at_restart }
{
    (m[TOP] % 65536) as u16
}

// The last SN sent to a receiver.
pub fn sn(m: &[u64], receiver: u8) -> u16
    requires { length m.now ≡ MEMORY }
    ensures { result ≡ (memory_view m.now).sn receiver }
{
    if 16 <= receiver {
        return 0;
    }
    (m[SN + receiver as usize] % 65536) as u16
}

fn mark(m: &[u64], sender: u8) -> u16
    requires { length m.now ≡ MEMORY }
    ensures { result ≡ (memory_view m.now).mark sender }
{
    if 16 <= sender {
        return 0;
    }
    (m[MARK + sender as usize] % 65536) as u16
}

fn window(m: &[u64], sender: u8) -> Window
    requires { length m.now ≡ MEMORY }
    ensures { window_bits result ≡ (memory_view m.now).window sender }
{
    if 16 <= sender {
        return Window { low: 0, high: 0 };
    }
    let i = sender as usize;
    Window {
        low: m[LOW + i],
        high: m[HIGH + i],
    }
}

// An SN of a sender looked up.
pub fn seen(m: &[u64], sender: u8, sn: u16) -> Seen
    requires { length m.now ≡ MEMORY }
    ensures { result ≡ seen (memory_view m.now) sender sn }
{
    let k = mark(m, sender);
    let w = window(m, sender);
    window::look(k, w, sn)
}

// The five words that a work changes: state, height, and the mark and window of the entry's sender, as they stand.
#[derive(Clone, Copy)]
pub struct Numbers {
    pub state: u64,
    pub height: u64,
    pub mark: u64,
    pub window: Window,
}

pub fn take(m: &[u64], sender: u8) -> Numbers
    requires m_len { length m.now ≡ MEMORY }
    requires sender_bound { sender < 16 }
    ensures { result ≡ taken m.now sender }
{
    Numbers {
        state: m[STATE],
        height: m[HEIGHT],
        mark: m[MARK + sender as usize],
        window: Window {
            low: m[LOW + sender as usize],
            high: m[HIGH + sender as usize],
        },
    }
}

pub fn give(m: &mut [u64], sender: u8, x: Numbers)
    requires m_len { length m.old ≡ MEMORY }
    requires sender_bound { sender < 16 }
    ensures { m.new ≡ given m.old sender x }
{
    m[STATE] = x.state;
    m[HEIGHT] = x.height;
    m[MARK + sender as usize] = x.mark;
    m[LOW + sender as usize] = x.window.low;
    m[HIGH + sender as usize] = x.window.high;
}

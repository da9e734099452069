// The 128 bits of a window in two words. A shift of a word by 64 is an error, so the words are told apart first.
ghost use Rattle.std.specs.Prelude.{◌≡◌, ◌+◌, ◌<◌, true};
ghost use Rattle.lists.specs.Map.{upd};
ghost use Rattle.protocol.specs.Window.{ones, width};
ghost use Rattle.window.specs.Bits.{window_bits};

// Two words and no u128: document 01 wants masks and shifts on a u64. The lowest bit of `low` is for the SN just above the mark, that of
// `high` for the SN 64 above that one.
#[derive(Clone, Copy)]
pub struct Window {
    pub low: u64,
    pub high: u64,
}

pub fn bit(w: Window, k: u16) -> bool
    requires { k < width }
    ensures { result ≡ window_bits w k }
{
    if k < 64 {
        (w.low >> k) & 1 == 1
    } else {
        (w.high >> (k - 64)) & 1 == 1
    }
}

pub fn set(w: Window, k: u16) -> Window
    requires { k < width }
    ensures { window_bits result ≡ upd k true (window_bits w) }
{
    if k < 64 {
        Window {
            low: w.low | (1 << k),
            ..w
        }
    } else {
        Window {
            high: w.high | (1 << (k - 64)),
            ..w
        }
    }
}

// The run of ones at the low end: it goes on in the high word where the low one is all ones.
pub fn run(w: Window) -> u32
    ensures { result ≡ ones width (window_bits w) }
{
    match (!w.low).trailing_zeros() {
        64 => 64 + (!w.high).trailing_zeros(),
        ones => ones,
    }
}

// The t lowest bits shifted out.
pub fn shift(w: Window, t: u32) -> Window
    ensures { window_bits result ≡ (λ i. window_bits w (t + i)) }
{
    match t {
        0 => w,
        1..=63 => Window {
            low: (w.low >> t) | (w.high << (64 - t)),
            high: w.high >> t,
        },
        64..=127 => Window {
            low: w.high >> (t - 64),
            high: 0,
        },
        _ => Window { low: 0, high: 0 },
    }
}

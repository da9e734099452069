// The whole state of a sitting in one lent store of words.
#![tactic(auto)]

ghost use Rattle.std.specs.Prelude.{◌≡◌, ◌<◌};
ghost use Rattle.store.specs.View.{view};

use head::HEAD;
use memory::MEMORY;

// Where each part begins.
pub const LIVE: usize = HEAD;

pub const COPY: usize = LIVE + 13 * MEMORY;

pub const NOTES: usize = COPY + 13 * MEMORY;

pub const NOTELIST: usize = 65;

pub const WIRE: usize = NOTES + 7 * NOTELIST;

pub const PACKETS: usize = 129;

pub const STORE: usize = WIRE + PACKETS;

// The last SN of a to b.
pub fn last_sn(s: &[u64; STORE], a: u8, b: u8) -> u16
    requires { a < 13 }
    ensures { result ≡ ((view s.now).live a).sn b }
{
    let x = LIVE + (a as usize) * MEMORY;
    memory::sn(&s[x..x + MEMORY], b)
}

// Document 02, Point 12: what came before what.
#![tactic(auto)]

ghost use Rattle.std.specs.Prelude.{◌≡◌};
ghost use Rattle.precedes.specs.Precedes.{Right, number};

use crate::links::{SLOTS, find, link};
use crate::past::visit;

mod links;
mod past;

// One processing: its chare and TN, the message's sender, and the sender's TN at which the message was sent (0 and 0 for the desk).
#[repr(C)]
#[derive(Clone, Copy)]
pub struct Processing {
    pub chare: u8,
    pub tn: u16,
    pub sender: u8,
    pub sender_tn: u16,
}

// Bad has the place of the first bad record, counted from 1. The four answers that were asked for, by which the definition goes.
#[derive(Clone, Copy)]
pub enum Answer {
    Bad(u16),
    Unknown,
    Yes,
    No,
}

// An answer as callers in C get it.
impl From<Answer> for u32 {
    ghost from_gives = { λ a n. n ≡ number a };

    fn from(a: Answer) -> u32 {
        match a {
            Answer::Bad(place) => 1000 + place as u32,
            Answer::Unknown => 2,
            Answer::Yes => 1,
            Answer::No => 0,
        }
    }
}

// Does chare's processing with TN tn precede later_chare's with TN later_tn? `before` and `sent` have the two links of each record, `at`
// the place of each name; 0 is none in them, since options would take twice the memory.
pub fn precedes(row: &[Processing], chare: u8, tn: u16, later_chare: u8, later_tn: u16) -> Answer
    ensures { Right row.now (chare, tn) (later_chare, later_tn) result }
{
    let mut at = [0u16; SLOTS];
    let mut before = [0u16; 512];
    let mut sent = [0u16; 512];
    if let Some(bad) = link(row, &mut at, &mut before, &mut sent) {
        return Answer::Bad(bad);
    }
    let Some(first) = find(&at, chare, tn) else {
        return Answer::Unknown;
    };
    let Some(second) = find(&at, later_chare, later_tn) else {
        return Answer::Unknown;
    };
    let mut seen = [false; 512];
    visit(&before, &sent, &mut seen, second);
    if first != second && seen[first as usize - 1] {
        return Answer::Yes;
    }
    Answer::No
}

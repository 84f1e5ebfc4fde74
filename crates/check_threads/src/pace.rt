//! A gate at which the members of a storm wait for each other at the end of each of their first turns.

use hg_io::Gate;
use std::sync::atomic::{AtomicU64, Ordering};
use std::thread;

/// The point at the end of a turn of member 0, the first of such points.
const FIRST: u32 = 3000;

/// They wait at the end of so many turns.
const TURNS: u64 = 40;

/// A member goes on after so many looks at the others.
const LOOKS: u32 = 1_000;

/// Who waits.
#[derive(Drop)]
pub struct Pace {
    /// How many turns all members together have ended.
    ended: AtomicU64,
    /// How many members wait for each other. If none do, nobody waits.
    members: u64,
}

impl Pace {
    /// No turn has ended, and so many members wait for each other.
    pub fn new(members: u64) -> Pace {
        Pace {
            ended: AtomicU64::new(0),
            members,
        }
    }
}

impl Gate for Pace {
    fn reach(&self, point: u32) {
        if point < FIRST || self.members == 0 {
            return;
        }
        let turn = self.ended.fetch_add(1, Ordering::SeqCst) / self.members;
        if turn >= TURNS {
            return;
        }
        for _look in 0..LOOKS {
            if self.ended.load(Ordering::SeqCst) / self.members > turn {
                return;
            }
            thread::yield_now();
        }
    }
}

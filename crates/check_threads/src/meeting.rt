//! Two branches that wait for each other: a worker stays between its freeze and its election until the other branch
//! has made its event, which that does once the worker has frozen. Where the worker has the turn then, or one branch
//! runs after the other, a wait comes to its limit. How often the worker passes its two points is counted.

use crate::beside::{AFTER, BEFORE};
use hg_io::Gate;
use std::sync::atomic::{AtomicBool, AtomicU32, Ordering};
use std::thread;

/// The point after the worker's freeze.
const FROZEN: u32 = 0;

/// The point after its election.
const ELECTED: u32 = 1;

/// A wait ends after so many looks at its flag.
const LOOKS: u32 = 10_000_000;

/// What the branches tell each other.
#[derive(Drop)]
pub struct Meeting {
    is_frozen: AtomicBool,
    is_made: AtomicBool,
    is_late: AtomicBool,
    /// How often the worker has frozen, and how often it has elected.
    frozen: AtomicU32,
    elected: AtomicU32,
}

impl Meeting {
    /// Nothing told.
    pub fn new() -> Meeting {
        Meeting {
            is_frozen: AtomicBool::new(false),
            is_made: AtomicBool::new(false),
            is_late: AtomicBool::new(false),
            frozen: AtomicU32::new(0),
            elected: AtomicU32::new(0),
        }
    }

    /// Whether a wait has come to its limit.
    pub fn is_late(&self) -> bool {
        self.is_late.load(Ordering::SeqCst)
    }

    /// Whether the worker has frozen so often, and elected as often.
    pub fn has_turns(&self, turns: u32) -> bool {
        self.frozen.load(Ordering::SeqCst) == turns && self.elected.load(Ordering::SeqCst) == turns
    }

    fn wait(&self, flag: &AtomicBool) {
        for _look in 0..LOOKS {
            if flag.load(Ordering::SeqCst) {
                return;
            }
            thread::yield_now();
        }
        self.is_late.store(true, Ordering::SeqCst);
    }
}

impl Gate for Meeting {
    fn reach(&self, point: u32) {
        match point {
            BEFORE => self.wait(&self.is_frozen),
            FROZEN => {
                self.frozen.fetch_add(1, Ordering::SeqCst);
                self.is_frozen.store(true, Ordering::SeqCst);
                self.wait(&self.is_made);
            }
            ELECTED => {
                self.elected.fetch_add(1, Ordering::SeqCst);
            }
            AFTER => self.is_made.store(true, Ordering::SeqCst),
            _ => {}
        }
    }
}

//! Gates at which two threads wait for each other.

use hg_io::Gate;
use std::sync::atomic::{AtomicBool, AtomicU32, Ordering};
use std::thread;

/// A wait ends after so many looks at its flag.
const LOOKS: u32 = 10_000_000;

/// What two threads tell each other.
#[derive(Drop)]
struct Flags {
    one: AtomicBool,
    two: AtomicBool,
    /// A wait has come to its limit.
    late: AtomicBool,
}

impl Flags {
    fn new() -> Flags {
        Flags {
            one: AtomicBool::new(false),
            two: AtomicBool::new(false),
            late: AtomicBool::new(false),
        }
    }

    fn wait(&self, flag: &AtomicBool) {
        for _look in 0..LOOKS {
            if flag.load(Ordering::SeqCst) {
                return;
            }
            thread::yield_now();
        }
        self.late.store(true, Ordering::SeqCst);
    }

    fn is_late(&self) -> bool {
        self.late.load(Ordering::SeqCst)
    }
}

/// The line begins once the worker has frozen, and the worker decides once the line has its answer.
#[derive(Drop)]
pub struct LinesMeet {
    flags: Flags,
}

impl LinesMeet {
    pub fn new() -> LinesMeet {
        LinesMeet {
            flags: Flags::new(),
        }
    }

    pub fn is_late(&self) -> bool {
        self.flags.is_late()
    }
}

impl Gate for LinesMeet {
    fn reach(&self, point: u32) {
        match point {
            0 => {
                self.flags.one.store(true, Ordering::SeqCst);
                self.flags.wait(&self.flags.two);
            }
            1000 => self.flags.wait(&self.flags.one),
            2000 => self.flags.two.store(true, Ordering::SeqCst),
            _ => (),
        }
    }
}

/// Each of two workers decides once both have frozen.
#[derive(Drop)]
pub struct WorkersMeet {
    flags: Flags,
}

impl WorkersMeet {
    pub fn new() -> WorkersMeet {
        WorkersMeet {
            flags: Flags::new(),
        }
    }

    pub fn is_late(&self) -> bool {
        self.flags.is_late()
    }
}

impl Gate for WorkersMeet {
    fn reach(&self, point: u32) {
        match point {
            0 => {
                self.flags.one.store(true, Ordering::SeqCst);
                self.flags.wait(&self.flags.two);
            }
            2 => {
                self.flags.two.store(true, Ordering::SeqCst);
                self.flags.wait(&self.flags.one);
            }
            _ => (),
        }
    }
}

/// The worker publishes what it has decided once eight lines have their answers.
#[derive(Drop)]
pub struct WorkerHeld {
    flags: Flags,
    answers: AtomicU32,
}

impl WorkerHeld {
    pub fn new() -> WorkerHeld {
        WorkerHeld {
            flags: Flags::new(),
            answers: AtomicU32::new(0),
        }
    }

    pub fn is_late(&self) -> bool {
        self.flags.is_late()
    }

    fn count_answer(&self) {
        if self.answers.fetch_add(1, Ordering::SeqCst) == 7 {
            self.flags.one.store(true, Ordering::SeqCst);
        }
    }
}

impl Gate for WorkerHeld {
    fn reach(&self, point: u32) {
        match point {
            1 => self.flags.wait(&self.flags.one),
            2000 | 2001 => self.count_answer(),
            _ => (),
        }
    }
}

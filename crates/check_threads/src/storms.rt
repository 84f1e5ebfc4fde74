//! A storm of two nodes in which the first turn of each ends only once the other's has come to its end: both run beside each
//! other.

use hg_check::Trouble;
use hg_io::{Gate, NoGate};
use hg_life::Members;
use hg_model::Member;
use hg_storm::storm;
use hg_workers::Voters;
use hg_world::World;
use std::alloc::Global;
use std::sync::Wait;
use std::sync::atomic::{AtomicBool, Ordering};
use std::thread::{self, Threads};

/// The points at the end of the turns of members 0 and 1.
const FIRST: u32 = 3000;

const SECOND: u32 = 3001;

/// A wait ends after so many looks at its flag.
const LOOKS: u32 = 10_000_000;

/// What two members tell each other at the end of their first turns.
#[derive(Drop)]
struct Encounter {
    has_first: AtomicBool,
    has_second: AtomicBool,
    is_late: AtomicBool,
}

impl Encounter {
    /// Nothing told.
    fn new() -> Encounter {
        Encounter {
            has_first: AtomicBool::new(false),
            has_second: AtomicBool::new(false),
            is_late: AtomicBool::new(false),
        }
    }

    /// One's first turn stays until the other's has come to its end.
    fn meet(&self, own: &AtomicBool, other: &AtomicBool) {
        if own.swap(true, Ordering::SeqCst) {
            return;
        }
        for _look in 0..LOOKS {
            if other.load(Ordering::SeqCst) {
                return;
            }
            thread::yield_now();
        }
        self.is_late.store(true, Ordering::SeqCst);
    }
}

impl Gate for Encounter {
    fn reach(&self, point: u32) {
        match point {
            FIRST => self.meet(&self.has_first, &self.has_second),
            SECOND => self.meet(&self.has_second, &self.has_first),
            _ => {}
        }
    }
}

/// Whether each node has so many events.
fn have_events(world: &World, count: usize) -> bool {
    for member in 0..world.members() {
        if world.node(member as Member).rows() != count {
            return false;
        }
    }
    true
}

/// Whether two members' first turns meet, and their nodes have two events of each in the end.
pub fn first_turns_meet<R: Threads + Wait + Sync>(
    rt: &R,
    alloc: Global,
    members: &Members,
) -> Result<bool, Trouble> {
    let encounter = Encounter::new();
    let voters = Voters::new(&NoGate);
    let storm = storm(rt, alloc, members, 2, 1_024, 7, &voters, &encounter)?;
    Ok(!encounter.is_late.load(Ordering::SeqCst) && have_events(&storm.world, 4))
}

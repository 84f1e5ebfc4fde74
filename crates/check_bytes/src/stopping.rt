//! What ends a reading early.

use hg_model::{Memory, Stop};

fn wants_memory(stop: Stop<u8>) -> bool {
    match stop {
        Stop::Memory => true,
        Stop::Fault(_) => false,
    }
}

#[test]
fn want_of_memory_ends_a_reading(rt: HostRuntime) {
    assert!(rt; wants_memory(Stop::from(Memory)));
    assert!(rt; !wants_memory(Stop::Fault(0)));
}

ghost use Rattle.std.specs.Prelude.{◌≡◌, ◌≤◌, OnOk, vec_capacity};

use std::alloc::{AllocError, AllocFailed};

/// Memory ran out. Any call that takes memory may answer so: no contract says that there was too little of it.
#[derive(Clone, Copy, Debug, PartialEq, Eq)]
pub struct Memory;

impl From<AllocError> for Memory {
    fn from(_refused: AllocError) -> Memory {
        Memory
    }
}

impl<T: Drop> From<AllocFailed<T>> for Memory {
    fn from(_refused: AllocFailed<T>) -> Memory {
        Memory
    }
}

/// Takes the memory for so many items in all. Where there are none yet nothing is copied: memory that nothing was written to is
/// not touched.
pub fn reserve_all<T: Copy>(items: &mut Vec<T>, count: usize) -> Result<(), Memory>
    ensures room { OnOk result (count ≤ vec_capacity items.new) }
    ensures more { vec_capacity items.old ≤ vec_capacity items.new }
    ensures same { items.new.items ≡ items.old.items }
{
    let capacity = items.capacity();
    if count <= capacity {
        return Ok(());
    }
    if !items.is_empty() {
        items.reserve(count - items.len())?;
        return Ok(());
    }
    let alloc = *items.allocator();
    *items = Vec::with_capacity(alloc, count.max(capacity.saturating_mul(2)))?;
    Ok(())
}

ghost use Rattle.std.specs.Prelude.{◌≡◌};

use crate::Memory;
use std::alloc::{AllocError, AllocFailed};

/// What ends a reading early: want of memory, or the first fault of what is read.
#[derive(Clone, Copy, Debug)]
pub enum Stop<E> {
    Memory,
    Fault(E),
}

impl<E> From<AllocError> for Stop<E> {
    ghost use Rattle.hg_model.specs.declared.stop.Stop.TheVariants.{Memory};

    ghost from_gives = { λ _ stop. stop ≡ Memory };

    fn from(_refused: AllocError) -> Stop<E> {
        Stop::Memory
    }
}

impl<T: Drop, E> From<AllocFailed<T>> for Stop<E> {
    ghost use Rattle.hg_model.specs.declared.stop.Stop.TheVariants.{Memory};

    ghost from_gives = { λ _ stop. stop ≡ Memory };

    fn from(_refused: AllocFailed<T>) -> Stop<E> {
        Stop::Memory
    }
}

impl<E> From<Memory> for Stop<E> {
    ghost use Rattle.hg_model.specs.declared.stop.Stop.TheVariants.{Memory};

    ghost from_gives = { λ _ stop. stop ≡ Memory };

    fn from(_wanted: Memory) -> Stop<E> {
        Stop::Memory
    }
}

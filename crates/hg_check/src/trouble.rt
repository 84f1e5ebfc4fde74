ghost use Rattle.std.specs.Prelude.{◌≡◌};
ghost use Rattle.hg_check.specs.Troubles.{trouble_text};

use hg_model::Memory;
use std::alloc::{AllocError, AllocFailed};
use std::io;

/// Why a program of tests came to no end.
#[derive(Clone, Copy, Debug, PartialEq, Eq)]
pub enum Trouble {
    /// What it reads has another form.
    Broken,
    /// The made members are none.
    Members,
    /// Memory ran out.
    Memory,
    /// A file could not be read, or a line not be written.
    Outside,
    /// The program that it runs came to another status than its end.
    Program,
}

impl Trouble {
    /// The words by which it is told.
    pub fn text(self) -> &'static str
        ensures { result.now ≡ trouble_text self }
    {
        match self {
            Trouble::Broken => "broken",
            Trouble::Members => "no members",
            Trouble::Memory => "out of memory",
            Trouble::Outside => "not read, or a line not written",
            Trouble::Program => "another status",
        }
    }
}

impl From<AllocError> for Trouble {
    ghost use Rattle.hg_check.specs.declared.trouble.Trouble.TheVariants as trouble;

    ghost from_gives = { λ _ found. found ≡ trouble.Memory };

    fn from(_error: AllocError) -> Trouble {
        Trouble::Memory
    }
}

impl From<Memory> for Trouble {
    ghost use Rattle.hg_check.specs.declared.trouble.Trouble.TheVariants as trouble;

    ghost from_gives = { λ _ found. found ≡ trouble.Memory };

    fn from(_error: Memory) -> Trouble {
        Trouble::Memory
    }
}

impl<T: Drop> From<AllocFailed<T>> for Trouble {
    ghost use Rattle.hg_check.specs.declared.trouble.Trouble.TheVariants as trouble;

    ghost from_gives = { λ _ found. found ≡ trouble.Memory };

    fn from(_error: AllocFailed<T>) -> Trouble {
        Trouble::Memory
    }
}

impl From<io::Error> for Trouble {
    ghost use Rattle.hg_check.specs.declared.trouble.Trouble.TheVariants as trouble;

    ghost from_gives = { λ _ found. found ≡ trouble.Outside };

    fn from(_error: io::Error) -> Trouble {
        Trouble::Outside
    }
}

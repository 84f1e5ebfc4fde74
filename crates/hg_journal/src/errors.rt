use hg_io::Failed;
use hg_model::Memory;

/// Why a journal was not opened.
#[derive(Clone, Copy, Debug, PartialEq, Eq)]
pub enum OpenError {
    /// The disk failed, and its count for the file's name rose.
    Disk,
    /// Memory ran out.
    Memory,
    /// The file is no journal, or that of another member or of another number of members.
    Foreign,
    /// At this place of the file, in bytes, a gate must stand and none does, or an open one whose record is not whole, tells
    /// nothing or changes nothing.
    Broken(u64),
}

impl From<Failed> for OpenError {
    ghost use Rattle.std.specs.Prelude.{◌≡◌};
    ghost use Rattle.hg_journal.specs.declared.errors.OpenError.TheVariants.{Disk};

    ghost from_gives = { λ _ e. e ≡ Disk };

    fn from(_: Failed) -> Self {
        OpenError::Disk
    }
}

impl From<Memory> for OpenError {
    ghost use Rattle.std.specs.Prelude.{◌≡◌};
    ghost use Rattle.hg_journal.specs.declared.errors.OpenError.TheVariants as variants;

    ghost from_gives = { λ _ e. e ≡ variants.Memory };

    fn from(_: Memory) -> Self {
        OpenError::Memory
    }
}

/// Why a call on a stored node gave no answer.
#[derive(Clone, Copy, Debug, PartialEq, Eq)]
pub enum StoreError {
    /// The disk failed in this call, and its count for the file's name rose.
    Disk,
    /// It failed in an earlier one: the journal is to be opened again.
    Closed,
    /// Memory ran out. Nothing was changed.
    Memory,
}

impl From<Memory> for StoreError {
    ghost use Rattle.std.specs.Prelude.{◌≡◌};
    ghost use Rattle.hg_journal.specs.declared.errors.StoreError.TheVariants as variants;

    ghost from_gives = { λ _ e. e ≡ variants.Memory };

    fn from(_: Memory) -> Self {
        StoreError::Memory
    }
}

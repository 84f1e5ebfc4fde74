ghost use Rattle.std.specs.Prelude.{◌≡◌};

use crate::failed::Failed;
use crate::shelf::Shelf;
use crate::source::Source;
use std::marker::Model;

/// A shelf whose started file is read as a stream. It holds the shelf, and gives it back. Contracts see the shelf and the
/// name of the file.
#[derive(Drop)]
pub struct Started<'a, S: Shelf> {
    shelf: S,
    name: &'a str,
}

impl<'a, S: Shelf> Model for Started<'a, S> {
    ghost use Rattle.std.specs.Prelude.{ℕ, List};

    ghost Value = { S × List ℕ };

    ghost view = { λ s. (s.shelf, s.name.now) };

    ghost invariant = { λ s. S.At s.shelf s.name.now };
}

impl<'a, S: Shelf> Started<'a, S> {
    /// The shelf as a source of the file of this name, which is started. Takes no memory.
    pub fn new(shelf: S, name: &'a str) -> Started<'a, S>
        requires { S.At shelf name.now }
        ensures { result ≡ (shelf, name.now) }
    {
        Started { shelf, name }
    }

    /// The shelf, with the file read as far as it was.
    pub fn into_shelf(self) -> S
        ensures shelf { result ≡ self.entry.0 }
        ensures started { S.At result self.entry.1 }
    {
        self.shelf
    }
}

impl<'a, S: Shelf> Source for Started<'a, S> {
    ghost left = { λ s. S.left s.0 };

    ghost faults = { λ s. S.faults s.0 s.1 };

    fn read(&mut self, buf: &mut [u8]) -> Result<usize, Failed> {
        self.shelf.read(self.name, buf)
    }
}

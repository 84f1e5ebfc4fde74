ghost use Rattle.std.specs.Prelude.{◌≡◌, OnOk, []};
ghost use Rattle.hg_play.specs.Tape.{no_tape, tape, with_label, with_piece};

use hg_model::{Bytes, Memory};
use hg_outcome::Printed;
use std::alloc::Global;
use std::marker::Model;

/// What lines leave beside their steps: the bytes of the labels so far, and what was printed so far.
#[derive(Drop)]
pub(crate) struct Tape {
    labels: Vec<Bytes>,
    printed: Vec<Printed>,
}

impl Model for Tape {
    ghost use Rattle.hg_play.specs.Tape.{TapeView, tape};

    ghost Value = { TapeView };

    ghost view = { λ t. tape t.labels.items t.printed.items };
}

impl Tape {
    /// No label, and nothing printed.
    pub(crate) fn new(alloc: Global) -> Tape
        ensures { result ≡ no_tape }
    {
        Tape {
            labels: Vec::new(alloc),
            printed: Vec::new(alloc),
        }
    }

    /// The bytes of the labels, by their numbers.
    pub(crate) fn labels(&self) -> &[Bytes]
        ensures { result.now ≡ self.now.labels }
    {
        self.labels.as_slice()
    }

    /// The next label stands for these bytes.
    pub(crate) fn label(&mut self, bytes: Bytes) -> Result<(), Memory>
        ensures { OnOk result (self.new ≡ with_label self.old bytes) }
    {
        self.labels.push(bytes)?;
        Ok(())
    }

    /// A piece is printed behind the others.
    pub(crate) fn print(&mut self, piece: Printed) -> Result<(), Memory>
        ensures { OnOk result (self.new ≡ with_piece self.old piece) }
    {
        self.printed.push(piece)?;
        Ok(())
    }

    /// What was printed so far is let go.
    pub(crate) fn clear(&mut self)
        ensures { self.new ≡ tape self.old.labels [] }
    {
        self.printed.clear();
    }

    /// All that was printed.
    pub(crate) fn into_printed(self) -> Vec<Printed>
        ensures { result.items ≡ self.printed }
    {
        self.printed
    }
}

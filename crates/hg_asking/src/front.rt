ghost use Rattle.std.specs.Prelude.{◌≡◌, IfOk};
ghost use Rattle.hg_asking.specs.Lines.{front_in, heard_of, no_front, with_part};

use crate::reader::Heard;
use hg_model::Memory;
use std::alloc::Global;
use std::marker::Model;

/// How many bytes a line may have, without its line feed.
pub const LINE: usize = 1_048_576;

/// The front of a line, for which all memory is taken at once.
#[derive(Drop)]
pub struct Front {
    bytes: Vec<u8>,
    is_long: bool,
}

impl Model for Front {
    ghost use Rattle.std.specs.Prelude.{◌≤◌, vec_len, vec_capacity};
    ghost use Rattle.hg_asking.specs.Lines.{FrontView};

    ghost Value = { FrontView };

    ghost view = { λ front. record { bytes = front.bytes.items; is_long = front.is_long } };

    ghost invariant = { λ front. (vec_len front.bytes ≤ 1048576) × (1048576 ≤ vec_capacity front.bytes) };
}

impl Front {
    pub fn new(alloc: Global) -> Result<Front, Memory>
        ensures { IfOk result (λ front. front ≡ no_front) }
    {
        Ok(Front {
            bytes: Vec::with_capacity(alloc, LINE)?,
            is_long: false,
        })
    }

    /// Nothing is left of it where it is a line that was found.
    pub fn begin(&mut self, is_found: bool)
        ensures { self.new ≡ front_in is_found self.old }
    {
        if is_found {
            self.bytes.clear();
            self.is_long = false;
        }
    }

    /// Puts a part behind it, and keeps nothing where it becomes longer than a line may be.
    pub fn push(&mut self, part: &[u8])
        ensures { self.new ≡ with_part self.old part.now }
    {
        if self.is_long {
            return;
        }
        if part.len() > LINE - self.bytes.len() {
            self.bytes.clear();
            self.is_long = true;
            return;
        }
        self.bytes.extend_from_slice(part).unwrap();
    }

    pub fn as_slice(&self) -> &[u8]
        ensures { result.now ≡ self.now.bytes }
    {
        self.bytes.as_slice()
    }

    /// What it is as a whole line.
    pub fn heard(&self) -> Heard
        ensures { result ≡ heard_of self.now }
    {
        if self.is_long {
            Heard::Long
        } else {
            Heard::Line
        }
    }
}

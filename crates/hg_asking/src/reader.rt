ghost use Rattle.std.specs.Prelude.{◌≡◌, ◌<◌, ◌≤◌, ℕ, List, true, length, position, IfOk, IfSome, OnErr};
ghost use Rattle.hg_io.specs.Faults.{Rose};
ghost use Rattle.hg_script.specs.Script.{is_line_feed};
ghost use Rattle.hg_asking.specs.Lines.{Finds, Hears, IsUnread, has_line, lines_after, lines_kept, new_reader};

use crate::front::Front;
use crate::piece::Piece;
use hg_io::{Failed, Source};
use hg_model::Memory;
use std::alloc::Global;
use std::marker::Model;

/// What was found.
#[derive(Clone, Copy, Debug, PartialEq, Eq)]
pub enum Heard {
    /// A line, which `line` tells.
    Line,
    /// A line of more than 1,048,576 bytes, none of which is kept.
    Long,
}

/// Finds the lines of what is read from a source, however it is cut. It keeps one line and what was read behind it, for which
/// it takes 1,114,112 bytes at once. Contracts see which lines it finds in the bytes to come.
#[derive(Drop)]
pub struct LineReader {
    front: Front,
    is_found: bool,
    piece: Piece,
}

impl Model for LineReader {
    ghost use Rattle.hg_asking.specs.Lines.{IsInLine, ReaderView, reader_of};

    ghost Value = { ReaderView };

    ghost view = { λ reader. reader_of reader.is_found reader.front reader.piece };

    ghost invariant = { λ reader. IsInLine reader.front.bytes };
}

fn line_feed_in(bytes: &[u8]) -> Option<usize>
    ensures { result ≡ position is_line_feed bytes.now }
{
    bytes.iter().position(|byte| *byte == b'\n')
}

impl LineReader {
    /// A reader that has read nothing.
    pub fn new(alloc: Global) -> Result<LineReader, Memory>
        ensures new { IfOk result (λ reader. reader ≡ new_reader) }
        ensures finds { IfOk result (λ reader. (bytes : List ℕ) → lines_after reader bytes ≡ lines_kept bytes) }
    {
        Ok(LineReader {
            front: Front::new(alloc)?,
            is_found: false,
            piece: Piece::new(alloc)?,
        })
    }

    /// Takes the next line off what was read, if a whole one is there. Reads nothing.
    pub fn next(&mut self) -> Option<Heard>
        ensures finds { Finds self.old self.new result }
        ensures fewer { IfSome result (λ _. length self.new.ahead < length self.old.ahead) }
    {
        let end = line_feed_in(self.piece.as_slice())?;
        self.front.begin(self.is_found);
        self.front.push(&self.piece.as_slice()[..end]);
        self.piece.skip(end + 1);
        self.is_found = true;
        Some(self.front.heard())
    }

    /// The line that was found last, without its line feed; nothing where that was too long, or something was read since.
    pub fn line(&self) -> &[u8]
        ensures { result.now ≡ self.now.line }
    {
        if self.is_found {
            self.front.as_slice()
        } else {
            &[]
        }
    }

    /// Whether a whole line is there already.
    pub fn has_line(&self) -> bool
        ensures { result ≡ has_line self.now }
    {
        line_feed_in(self.piece.as_slice()).is_some()
    }

    /// Reads once more, if no whole line is there, and answers whether anything came: nothing only at the source's end. At
    /// `Failed` nothing is lost.
    pub fn read<S: Source>(&mut self, source: &mut S) -> Result<bool, Failed>
        ensures hears { Hears (S.left source.old) (S.left source.new) self.old self.new result }
        ensures there { has_line self.old ≡ true → IsUnread source.old source.new self.old self.new result }
        ensures cause { OnErr result (Rose (S.faults source.old) (S.faults source.new)) }
        ensures counts { S.faults source.old ≤ S.faults source.new }
    {
        if self.has_line() {
            return Ok(true);
        }
        self.front.begin(self.is_found);
        self.is_found = false;
        self.front.push(self.piece.as_slice());
        self.piece.read(source)
    }
}

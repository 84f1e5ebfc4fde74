ghost use Rattle.std.specs.Prelude.{◌≡◌, ◌<◌, ◌≤◌, true, false, [], drop, length, IfOk, IfSome, OnErr};
ghost use Rattle.hg_io.specs.Bytes.{TakesOff};
ghost use Rattle.hg_io.specs.Faults.{Rose};

use hg_io::{Failed, Source};
use hg_model::Memory;
use std::alloc::Global;
use std::marker::Model;

/// How many bytes a read may give at once.
const PIECE: usize = 65_536;

/// What was read at once and is not yet used.
#[derive(Drop)]
pub struct Piece {
    bytes: Vec<u8>,
    at: usize,
    end: usize,
}

impl Model for Piece {
    ghost use Rattle.std.specs.Prelude.{ℕ, ◌≤◌, ◌<◌, ◌-◌, List, drop, take, vec_len};

    ghost Value = { List ℕ };

    ghost view = { λ piece. drop piece.at (take piece.end piece.bytes.items) };

    ghost invariant = { λ piece. (piece.at ≤ piece.end) × (piece.end ≤ vec_len piece.bytes) × (0 < vec_len piece.bytes) };
}

impl Piece {
    pub fn new(alloc: Global) -> Result<Piece, Memory>
        ensures { IfOk result (λ piece. piece ≡ []) }
    {
        Ok(Piece {
            bytes: vec![in alloc; 0; PIECE]?,
            at: 0,
            end: 0,
        })
    }

    pub fn as_slice(&self) -> &[u8]
        ensures { result.now ≡ self.now }
    {
        &self.bytes[self.at..self.end]
    }

    /// So many first bytes were used.
    pub fn skip(&mut self, count: usize)
        requires { count ≤ length self.old }
        ensures { self.new ≡ drop count self.old }
    {
        self.at += count;
    }

    /// Reads the next bytes in place of these, and answers whether there were any: none only at the source's end. At `Failed`
    /// there are none.
    pub fn read<S: Source>(&mut self, source: &mut S) -> Result<bool, Failed>
        ensures next { TakesOff (S.left source.old) (S.left source.new) self.new }
        ensures some { IfOk result (λ some. some ≡ true → 0 < length self.new) }
        ensures end { IfOk result (λ some. some ≡ false → IfSome (S.left source.new) (λ rest. rest ≡ [])) }
        ensures none { IfOk result (λ some. some ≡ false → self.new ≡ []) }
        ensures failed { OnErr result (self.new ≡ []) }
        ensures cause { OnErr result (Rose (S.faults source.old) (S.faults source.new)) }
        ensures counts { S.faults source.old ≤ S.faults source.new }
    {
        self.at = 0;
        self.end = 0;
        let count = source.read(&mut self.bytes)?;
        self.end = count;
        Ok(count > 0)
    }
}

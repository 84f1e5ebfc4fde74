ghost use Rattle.std.specs.Prelude.{◌≡◌, ◌<◌, ◌≤◌, false, length, replicate, IfOk};
ghost use Rattle.hg_bits.specs.Rows.{is_in, is_over, is_subset, union_of, with_place};
ghost use Rattle.hg_bits.specs.Words.{Finds};

use crate::words::{first_over, has_bit, join, set_bit};
use hg_model::Memory;
use std::alloc::Global;
use std::marker::Model;

/// A row of bits, told as the list of its truth values.
#[derive(Debug, Drop)]
pub struct BitRow {
    len: usize,
    words: Vec<u64>,
}

impl Model for BitRow {
    ghost use Rattle.std.specs.Prelude.{Bool, List};
    ghost use Rattle.hg_bits.specs.Words.{bits_of, HoldsBits};

    ghost Value = { List Bool };

    ghost view = { λ s. bits_of s.words.items s.len };

    ghost invariant = { λ s. HoldsBits s.words.items s.len };
}

impl BitRow {
    /// A row of so many bits, with no place in it.
    pub fn new(alloc: Global, len: usize) -> Result<BitRow, Memory>
        ensures { IfOk result (λ row. row ≡ replicate len false) }
    {
        let words = vec![in alloc; 0u64; len / 64 + 1]?;
        Ok(BitRow { len, words })
    }

    /// The same row, in memory of its own.
    pub fn copy(&self, alloc: Global) -> Result<BitRow, Memory>
        ensures { IfOk result (λ row. row ≡ self.now) }
    {
        let words = Vec::from_slice(alloc, &self.words)?;
        Ok(BitRow {
            len: self.len,
            words,
        })
    }

    /// How many bits there are.
    pub fn len(&self) -> usize
        ensures { result ≡ length self.now }
    {
        self.len
    }

    /// Adds place `i`.
    pub fn set(&mut self, i: usize)
        requires { i < length self.old }
        ensures { self.new ≡ with_place self.old i }
    {
        set_bit(&mut self.words, i);
    }

    /// Whether the row has place `i`.
    pub fn has(&self, i: usize) -> bool
        requires { i < length self.now }
        ensures { result ≡ is_in self.now i }
    {
        has_bit(&self.words, i)
    }

    /// Adds the places of the other row, which is no longer than this one.
    pub fn union(&mut self, other: &BitRow)
        requires { length other.now ≤ length self.old }
        ensures { self.new ≡ union_of self.old other.now }
    {
        join(&mut self.words, &other.words);
    }

    /// The first place from `from` on that this row has and the other has not.
    pub fn first_over(&self, other: &BitRow, from: usize) -> Option<usize>
        ensures { Finds (is_over self.now other.now) from (length self.now) result }
    {
        first_over(&self.words, &other.words, from)
    }

    /// Whether the other row has each place of this one.
    #[tactic(auto, using(crate::proofs::RowLaws::subset_steps))]
    pub fn subset(&self, other: &BitRow) -> bool
        ensures { result ≡ is_subset self.now other.now }
    {
        match self.first_over(other, 0) {
            Some(_) => false,
            None => true,
        }
    }
}

ghost use Rattle.std.specs.Prelude.{◌≡◌, ◌<◌, ◌^◌, [], length, take, slice_index_or, IfOk, OnOk, OnErr};
ghost use Rattle.std.specs.List.{AllByRecursion};
ghost use Rattle.hg_model.specs.GraphWords.{strongly_sees_in};
ghost use Rattle.hg_votes.specs.Slots.{AddsSet};

use crate::slots::mark_seen;
use hg_model::{Memory, Sight};
use std::alloc::Global;
use std::marker::Model;

/// A stretch of words: from `start` to before `end`.
#[derive(Clone, Copy)]
pub struct Span {
    pub start: usize,
    pub end: usize,
}

/// Sets of slots, one after the other in one stretch of words of 64 bits.
#[derive(Drop)]
pub struct SlotSets {
    words: Vec<u64>,
    spans: Vec<Span>,
}

impl Model for SlotSets {
    ghost use Rattle.std.specs.Prelude.{ℕ, List, length, map};
    ghost use Rattle.hg_votes.specs.Slots.{AreWithin, words_in};

    ghost Value = { List (List ℕ) };

    ghost view = { λ s. map (words_in s.words.items) s.spans.items };

    ghost invariant = { λ s. AreWithin (length s.words.items) s.spans.items };
}

impl SlotSets {
    /// No sets. Takes no memory.
    pub fn new(alloc: Global) -> SlotSets
        ensures { result ≡ [] }
    {
        SlotSets {
            words: Vec::new(alloc),
            spans: Vec::new(alloc),
        }
    }

    /// How many sets there are.
    pub fn len(&self) -> usize
        ensures { result ≡ length self.now }
    {
        self.spans.len()
    }

    /// The words of a set.
    pub fn set(&self, number: usize) -> &[u64]
        requires { number < length self.now }
        ensures { result.now ≡ slice_index_or self.now number [] }
    {
        let span = self.spans[number];
        &self.words[span.start..span.end]
    }

    /// One set more: the slots of those of these rows that row `y` strongly sees. An error leaves the sets.
    pub fn push_seen<S: Sight>(&mut self, sight: &S, rows: &[usize], y: usize) -> Result<(), Memory>
        requires short { length rows.now < 2 ^ 32 }
        requires place { y < length (S.shape sight.now).links }
        requires places { AllByRecursion (λ w. w < length (S.shape sight.now).links) rows.now }
        ensures ok { OnOk result (AddsSet self.old self.new rows.now (strongly_sees_in (S.shape sight.now) y)) }
        ensures err { OnErr result (self.new ≡ self.old) }
    {
        let start = self.words.len();
        self.spans.reserve(1)?;
        self.words.resize(start + rows.len().div_ceil(64), 0)?;
        mark_seen(&mut self.words[start..], sight, rows, y);
        let end = self.words.len();
        self.spans.push_reserved(Span { start, end });
        Ok(())
    }

    /// The same sets as a value of their own.
    pub fn copied(&self, alloc: Global) -> Result<SlotSets, Memory>
        ensures { IfOk result (λ copy. copy ≡ self.now) }
    {
        Ok(SlotSets {
            words: Vec::from_slice(alloc, &self.words)?,
            spans: Vec::from_slice(alloc, &self.spans)?,
        })
    }

    /// The first `len` sets alone.
    pub fn truncate(&mut self, len: usize)
        ensures { self.new ≡ take len self.old }
    {
        self.spans.truncate(len);
    }
}

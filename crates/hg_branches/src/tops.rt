ghost use Rattle.std.specs.Prelude.{◌≡◌, ◌<◌, ◌≤◌, ◌^◌, ℕ, length, replicate, slice_index, slice_set, IfOk, OnOk};
ghost use Rattle.hg_branches.specs.Columns.{with_branch};
ghost use Rattle.hg_branches.specs.Landmarks.{AreNews};
ghost use Rattle.hg_model.specs.Counts.{numbers_of};

use crate::counts::number_at;
use hg_model::{Counts, Memory};
use std::alloc::Global;
use std::marker::Model;

/// For each branch the end of its last landmark, or 0.
#[derive(Drop)]
pub struct Tops {
    /// The ends, where one that does not fit is the greatest number.
    narrow: Vec<u16>,
    wide: Vec<u32>,
}

impl Model for Tops {
    ghost use Rattle.std.specs.Prelude.{◌-◌, min, vec_capacity, vec_len};
    ghost use Rattle.hg_branches.specs.Tops.{TopsWithRoom, HoldsLow};

    ghost Value = { TopsWithRoom };

    ghost view = { λ s. record {
      ends = s.wide.items;
      room = min (vec_capacity s.narrow - vec_len s.narrow) (vec_capacity s.wide - vec_len s.wide);
    } };

    ghost invariant = { λ s. HoldsLow s.narrow.items s.wide.items };
}

impl Tops {
    /// Of so many branches without a landmark.
    pub fn new(alloc: Global, branches: usize) -> Result<Tops, Memory>
        ensures { IfOk result (λ t. t.ends ≡ replicate branches 0) }
    {
        Ok(Tops {
            narrow: vec![in alloc; 0u16; branches]?,
            wide: vec![in alloc; 0u32; branches]?,
        })
    }

    /// Takes the memory of one more branch.
    pub fn reserve(&mut self) -> Result<(), Memory>
        ensures room { OnOk result (1 ≤ self.new.room) }
        ensures ends { self.new.ends ≡ self.old.ends }
    {
        self.narrow.reserve(1)?;
        self.wide.reserve(1)?;
        Ok(())
    }

    /// Opens the branch for landmarks, of which it has none, if it is a new one. Takes no memory.
    pub fn open(&mut self, branch: usize)
        requires there { branch ≤ length self.old.ends }
        requires room { 1 ≤ self.old.room }
        ensures { self.new.ends ≡ with_branch self.old.ends branch 0 }
    {
        if branch == self.wide.len() {
            self.narrow.push_reserved(0);
            self.wide.push_reserved(0);
        }
    }

    /// The branch has a landmark more, which ends here.
    pub fn raise(&mut self, branch: usize, end: u32)
        requires { branch < length self.old.ends }
        ensures ends { self.new.ends ≡ slice_set self.old.ends branch end }
        ensures room { self.new.room ≡ self.old.room }
    {
        self.narrow[branch] = end.min(u32::from(u16::MAX)) as u16;
        self.wide[branch] = end;
    }

    /// Marks with 1, and else 0, each lane in which a row counts more than is known, and some landmark is not known.
    pub fn mark_news(&self, known: Counts<'_>, counts: Counts<'_>, news: &mut [u8])
        requires known_all { length (numbers_of counts) ≤ length (numbers_of known) }
        requires tops_all { length (numbers_of counts) ≤ length self.now.ends }
        requires room { length (numbers_of counts) ≤ length news.old }
        ensures len { length news.new ≡ length news.old }
        ensures each { AreNews (numbers_of known.entry) self.now.ends (numbers_of counts.entry) news.new }
    {
        match (known, counts) {
            (Counts::Narrow(known), Counts::Narrow(counts)) => {
                mark_narrow(known, &self.narrow, counts, news);
            }
            (Counts::Wide(known), Counts::Wide(counts)) => {
                mark_wide(known, &self.wide, counts, news);
            }
            _ => mark_mixed(known, &self.wide, counts, news),
        }
    }
}

/// One loop without a branch, in a call of its own, where the compiler knows that the lists do not overlap: it makes vectors
/// of it.
#[inline(never)]
fn mark_narrow(known: &[u16], tops: &[u16], counts: &[u16], news: &mut [u8])
    requires known_all { length counts.now ≤ length known.now }
    requires tops_all { length counts.now ≤ length tops.now }
    requires room { length counts.now ≤ length news.old }
    ensures len { length news.new ≡ length news.old }
    ensures each { AreNews known.now tops.now counts.now news.new }
    ensures short { (c : ℕ) → slice_index counts.now c < 2 ^ 16 }
{
    for c in 0..counts.len() {
        news[c] = u8::from(known[c] < tops[c].min(counts[c]));
    }
}

/// The same of 32 bits.
#[inline(never)]
fn mark_wide(known: &[u32], tops: &[u32], counts: &[u32], news: &mut [u8])
    requires known_all { length counts.now ≤ length known.now }
    requires tops_all { length counts.now ≤ length tops.now }
    requires room { length counts.now ≤ length news.old }
    ensures len { length news.new ≡ length news.old }
    ensures each { AreNews known.now tops.now counts.now news.new }
{
    for c in 0..counts.len() {
        news[c] = u8::from(known[c] < tops[c].min(counts[c]));
    }
}

/// The same of a row whose self-parent has another width.
fn mark_mixed(known: Counts<'_>, tops: &[u32], counts: Counts<'_>, news: &mut [u8])
    requires tops_all { length (numbers_of counts) ≤ length tops.now }
    requires room { length (numbers_of counts) ≤ length news.old }
    ensures len { length news.new ≡ length news.old }
    ensures each { AreNews (numbers_of known.entry) tops.now (numbers_of counts.entry) news.new }
{
    for c in 0..counts.len() {
        let least = number_at(known, c);
        news[c] = u8::from(least < tops[c].min(number_at(counts, c)));
    }
}

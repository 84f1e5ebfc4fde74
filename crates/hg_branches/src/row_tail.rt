ghost use Rattle.std.specs.Prelude.{◌≡◌};
ghost use Rattle.hg_branches.specs.Tails.{place_count, place_width};

use crate::counts::count_at;

/// What a row counts of the branches that are no member's own. Such a branch has a place, from 0 on, among them.
#[derive(Clone, Copy, Debug)]
pub struct RowTail<'a> {
    /// The numbers of the branches but for the row's own.
    pub numbers: &'a [u32],
    /// One more than the place of the row's own branch, or 0 where it is a member's own.
    pub own: usize,
    /// What the row counts of its own branch: one more than its place in the graph.
    pub end: u32,
}

impl<'a> RowTail<'a> {
    /// What the row counts of the branch at place `k`.
    pub fn at(&self, k: usize) -> u32
        ensures { result ≡ place_count self.now.numbers.now self.now.own self.now.end k }
    {
        let number = count_at(self.numbers, k);
        if self.own > 0 && self.own - 1 == k {
            return number.max(self.end);
        }
        number
    }

    /// Of how many branches the row tells.
    pub fn width(&self) -> usize
        ensures { result ≡ place_width self.now.numbers.now self.now.own }
    {
        self.numbers.len().max(self.own)
    }
}

ghost use Rattle.std.specs.Prelude.{◌≡◌, ◌<◌, ◌≤◌, ◌+◌, ℕ, max, length, slice_index, take};
ghost use Rattle.hg_model.specs.Counts.{numbers_of};
ghost use Rattle.hg_branches.specs.Rows.{row_in, known_place};

use crate::row_tail::RowTail;
use crate::table::CountTable;
use hg_bits::kernels::max_into;
use hg_model::Counts;
use std::marker::Model;

/// What a row counts of each branch.
#[derive(Drop)]
pub struct RowCounts<'a> {
    /// The numbers of the members' own branches.
    own: Counts<'a>,
    /// Those of the others.
    tail: RowTail<'a>,
}

impl<'a> Model for RowCounts<'a> {
    ghost use Rattle.std.specs.Prelude.{length};
    ghost use Rattle.hg_model.specs.Counts.{numbers_of};
    ghost use Rattle.hg_branches.specs.Rows.{RowView, joined_row};

    ghost Value = { RowView };

    ghost view = { λ s. record {
      members = length (numbers_of s.own);
      row = joined_row (numbers_of s.own) s.tail.numbers.now s.tail.own s.tail.end;
    } };
}

impl<'a> RowCounts<'a> {
    /// The number of branch `b`.
    pub fn at(&self, b: usize) -> u32
        ensures { result ≡ slice_index self.now.row b }
    {
        let members = self.own.len();
        if b < members {
            number_at(self.own, b)
        } else {
            self.tail.at(b - members)
        }
    }

    /// The first branch behind `b` that the row may tell of, or `many`. It counts 0 of those between: behind the numbers of its
    /// tail it tells of its own branch alone, which may be far.
    pub fn next_after(&self, b: usize, many: usize) -> usize
        requires { b < many }
        ensures later { b < result }
        ensures within { result ≤ many }
        ensures between { (c : ℕ) → b < c → c < result → slice_index self.now.row c ≡ 0 }
    {
        let next = b + 1;
        let members = self.own.len();
        if next < members.saturating_add(self.tail.numbers.len()) {
            return next;
        }
        let end = members.saturating_add(self.tail.own);
        if next < end { many.min(end - 1) } else { many }
    }

    /// The numbers of the members' own branches.
    pub fn own(&self) -> Counts<'_>
        ensures value { numbers_of result ≡ take self.now.members self.now.row }
        ensures len { length (numbers_of result) ≡ self.now.members }
    {
        self.own
    }
}

/// The counts of row `x`.
pub fn row_of(table: &CountTable, x: usize) -> RowCounts<'_>
    requires { x < length table.now.rows }
    ensures { result ≡ row_in table.now x }
{
    RowCounts {
        own: table.own(x),
        tail: table.tail(x),
    }
}

/// The place of the self-parent of row `x`, or `x` where it has no parents.
pub fn known_place(on: &[usize], x: usize) -> usize
    ensures { result ≡ known_place on.now x }
{
    match on.split_first() {
        None => x,
        Some((self_place, _)) => *self_place,
    }
}

/// Number `b` of these, or 0 where there is none.
pub fn number_at(counts: Counts<'_>, b: usize) -> u32
    ensures { result ≡ slice_index (numbers_of counts.entry) b }
{
    match counts {
        Counts::Narrow(numbers) => {
            match numbers.get(b) {
                Some(number) => u32::from(*number),
                None => 0,
            }
        }
        Counts::Wide(numbers) => count_at(numbers, b),
    }
}

/// The number of branch `b`, or 0 where there is none.
pub fn count_at(row: &[u32], b: usize) -> u32
    ensures { result ≡ slice_index row.now b }
{
    match row.get(b) {
        Some(number) => *number,
        None => 0,
    }
}

/// Raises as many of the first numbers as there are others.
pub fn raise_first(row: &mut [u32], others: &[u32])
    requires { length others.now ≤ length row.old }
    ensures len { length row.new ≡ length row.old }
    ensures each { (b : ℕ) → slice_index row.new b ≡ max (slice_index row.old b) (slice_index others.now b) }
{
    max_into(&mut row[..others.len()], others);
}

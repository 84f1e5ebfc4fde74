//! The numbers of a row of counts behind the members' own branches, made from those of its parents.

ghost use Rattle.std.specs.Prelude.{◌≡◌, ◌<◌, ◌≤◌, ◌+◌, ◌==◌, ◌^◌, ℕ, cond, max, length, slice_index, vec_capacity};
ghost use Rattle.std.specs.List.{AllByRecursion};
ghost use Rattle.hg_branches.specs.Table.{tail_next};
ghost use Rattle.hg_branches.specs.Tails.{IsRaisedBy, place_count, place_width, tail_width};

use crate::counts::raise_first;
use crate::row_tail::RowTail;
use crate::tail_blocks::TailBlocks;

/// Makes the row the greatest of its parents' tails, without the number of its own branch and cut behind its last one that
/// is not 0. No tail tells of more than `widest` branches: where that is none, there is nothing to look at.
pub fn join_tails(row: &mut Vec<u32>, tails: &TailBlocks, on: &[usize], own: usize, widest: usize)
    requires short { length tails.now.rows < 2 ^ 32 }
    requires places { AllByRecursion (λ p. p < length tails.now.rows) on.now }
    requires tails { AllByRecursion (λ p. tail_width tails.now.rows p ≤ widest) on.now }
    requires room { widest ≤ vec_capacity row.old }
    ensures each { (k : ℕ) → slice_index row.new.items k ≡ tail_next tails.now.rows on.now own k }
    ensures narrow { (n : ℕ) → AllByRecursion (λ p. tail_width tails.now.rows p ≤ n) on.now → length row.new.items ≤ n }
    ensures capacity { vec_capacity row.old ≤ vec_capacity row.new }
{
    if widest == 0 {
        row.clear();
    } else {
        join_wide_tails(row, tails, on, own);
    }
}

/// The same, whatever the tails tell of.
fn join_wide_tails(row: &mut Vec<u32>, tails: &TailBlocks, on: &[usize], own: usize)
    requires short { length tails.now.rows < 2 ^ 32 }
    requires places { AllByRecursion (λ p. p < length tails.now.rows) on.now }
    requires room { AllByRecursion (λ p. tail_width tails.now.rows p ≤ vec_capacity row.old) on.now }
    ensures each { (k : ℕ) → slice_index row.new.items k ≡ tail_next tails.now.rows on.now own k }
    ensures narrow { (n : ℕ) → AllByRecursion (λ p. tail_width tails.now.rows p ≤ n) on.now → length row.new.items ≤ n }
    ensures capacity { vec_capacity row.old ≤ vec_capacity row.new }
{
    row.clear();
    for place in on {
        raise_tail(row, tails.tail(*place));
    }
    clear_at(row, own);
    row.truncate(len_of(row));
}

/// Raises the row to these numbers. It becomes as long as they are, if it is shorter.
pub fn raise_row(row: &mut Vec<u32>, others: &[u32])
    requires { length others.now ≤ vec_capacity row.old }
    ensures len { length row.new.items ≡ max (length row.old.items) (length others.now) }
    ensures each { IsRaisedBy (slice_index others.now) row.old.items row.new.items }
    ensures capacity { vec_capacity row.old ≤ vec_capacity row.new }
{
    let both = row.len().min(others.len());
    raise_first(row, &others[..both]);
    row.extend_from_slice(&others[both..]).unwrap();
}

/// Raises the row to what a tail counts, of its own branch too.
fn raise_tail(row: &mut Vec<u32>, tail: RowTail)
    requires { place_width tail.numbers.now tail.own ≤ vec_capacity row.old }
    ensures len { length row.new.items ≡ max (length row.old.items) (place_width tail.entry.numbers.now tail.entry.own) }
    ensures each { IsRaisedBy (place_count tail.entry.numbers.now tail.entry.own tail.entry.end) row.old.items row.new.items }
    ensures capacity { vec_capacity row.old ≤ vec_capacity row.new }
{
    raise_row(row, tail.numbers);
    raise_at(row, tail.own, tail.end);
}

/// Raises the number before place `above`, if there is one, to `end`. Zeros fill a shorter row up to it.
fn raise_at(row: &mut Vec<u32>, above: usize, end: u32)
    requires { above ≤ vec_capacity row.old }
    ensures len { length row.new.items ≡ max (length row.old.items) above }
    ensures each { (k : ℕ) → slice_index row.new.items k ≡ max (slice_index row.old.items k) (cond (k + 1 == above) end 0) }
    ensures capacity { vec_capacity row.old ≤ vec_capacity row.new }
{
    if above > 0 {
        row.resize(row.len().max(above), 0).unwrap();
        row[above - 1] = row[above - 1].max(end);
    }
}

/// Makes the number before place `above` 0, if there is one.
fn clear_at(row: &mut [u32], above: usize)
    ensures len { length row.new ≡ length row.old }
    ensures each { (k : ℕ) → slice_index row.new k ≡ cond (k + 1 == above) 0 (slice_index row.old k) }
{
    if above > 0 && above <= row.len() {
        row[above - 1] = 0;
    }
}

/// How many numbers there are up to the last one that is not 0.
fn len_of(row: &[u32]) -> usize
    ensures within { result ≤ length row.now }
    ensures rest { (k : ℕ) → result ≤ k → slice_index row.now k ≡ 0 }
{
    let mut len = row.len();
    while len > 0 && row[len - 1] == 0 {
        len -= 1;
    }
    len
}

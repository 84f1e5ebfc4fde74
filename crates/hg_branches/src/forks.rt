ghost use Rattle.std.specs.Prelude.{◌≡◌, ◌<◌, ◌≤◌, ◌||◌, ◌&&◌, ◌==◌, ℕ, max, length, slice_index};
ghost use Rattle.std.specs.List.{AllByRecursion, list_all};
ghost use Rattle.hg_bits.specs.Masks.{mask_has};
ghost use Rattle.hg_branches.specs.Branches.{greatest_count};
ghost use Rattle.hg_branches.specs.Columns.{HasThose, count_in, counts_more, forks_anew, forks_next, forks_on_own, joined_counts};
ghost use Rattle.hg_branches.specs.Table.{is_own_row};

use crate::counts::{RowCounts, row_of};
use crate::table::CountTable;
use hg_bits::{join_masks, meet_masks, with_member};
use hg_blocks::Blocks;
use hg_model::Member;

/// The members with a fork among the ancestors of the next row, by this member on these parents. Counts are compared only
/// where `many` says that some member has a second branch: those of each other-parent with those of the parents before it.
pub fn forked_next(
    makers: &[Member],
    counts: &CountTable,
    forked: &Blocks<u128>,
    many: bool,
    on: &[usize],
    by: Member,
) -> u128
    requires member { by < 128 }
    requires members { (b : ℕ) → b < length makers.now → slice_index makers.now b < 128 }
    requires own { (m : ℕ) → m < counts.now.members → slice_index makers.now m ≡ m }
    requires own_all { counts.now.members ≤ length makers.now }
    requires rows { length counts.now.rows ≡ length forked.now.items }
    requires places { AllByRecursion (λ p. p < length forked.now.items) on.now }
    ensures { HasThose result (forks_next makers.now counts.now.rows forked.now.items many on.now by) }
{
    match on.split_first() {
        None => 0,
        Some((first, others)) => {
            let mut mask = forked[*first];
            for i in 0..others.len() {
                let next = others[i];
                mask = join_masks(mask, forked[next]);
                if many {
                    let anew = new_forks(makers, counts, *first, &others[..i], next, by);
                    mask = join_masks(mask, anew);
                }
            }
            mask
        }
    }
}

/// The members that have rows which these parents alone count, or are the creator, and have rows which the next parent alone
/// counts.
fn new_forks(
    makers: &[Member],
    counts: &CountTable,
    first: usize,
    others: &[usize],
    next: usize,
    by: Member,
) -> u128
    requires member { by < 128 }
    requires members { (b : ℕ) → b < length makers.now → slice_index makers.now b < 128 }
    requires own { (m : ℕ) → m < counts.now.members → slice_index makers.now m ≡ m }
    requires own_all { counts.now.members ≤ length makers.now }
    requires first { first < length counts.now.rows }
    requires others { AllByRecursion (λ p. p < length counts.now.rows) others.now }
    requires next { next < length counts.now.rows }
    ensures { HasThose result (forks_anew makers.now (joined_counts counts.now.rows first others.now) (count_in counts.now.rows next) by) }
{
    if counts.is_own(next) && counts.is_own(first) && are_own(counts, others) {
        return own_fork(counts, first, others, next, by);
    }
    let there = row_of(counts, next);
    let here = with_member(members_over(makers, counts, first, others, &there), by);
    meet_masks(here, members_past(makers, counts, first, others, &there))
}

/// Whether these rows tell of the members' own branches alone.
#[tactic(auto, using(crate::proofs::RowLaws::own_steps))]
fn are_own(counts: &CountTable, rows: &[usize]) -> bool
    requires { AllByRecursion (λ p. p < length counts.now.rows) rows.now }
    ensures { result ≡ list_all (is_own_row counts.now) rows.now }
{
    for row in rows {
        if !counts.is_own(*row) {
            return false;
        }
    }
    true
}

/// The creator, if the next parent counts more of its own branch than the parents before it. No one else has a new fork where
/// all count rows of the members' own branches alone.
fn own_fork(counts: &CountTable, first: usize, others: &[usize], next: usize, by: Member) -> u128
    requires member { by < 128 }
    requires first { first < length counts.now.rows }
    requires others { AllByRecursion (λ p. p < length counts.now.rows) others.now }
    requires next { next < length counts.now.rows }
    ensures { HasThose result (forks_on_own (joined_counts counts.now.rows first others.now) (count_in counts.now.rows next) by) }
{
    let own = usize::from(by);
    let most = greatest(counts.at(first, own), counts, others, own);
    if most < counts.at(next, own) {
        with_member(0, by)
    } else {
        0
    }
}

/// The greatest of this number and of what these rows count of branch `b`.
#[tactic(auto, using(crate::proofs::JoinLaws::greatest_steps))]
fn greatest(number: u32, counts: &CountTable, rows: &[usize], b: usize) -> u32
    requires { AllByRecursion (λ p. p < length counts.now.rows) rows.now }
    ensures { result ≡ max number (greatest_count (count_in counts.now.rows) rows.now b) }
{
    let mut most = number;
    for row in rows {
        most = most.max(counts.at(*row, b));
    }
    most
}

/// The members with a branch of which one of these rows counts more than the next parent.
fn members_over(
    makers: &[Member],
    counts: &CountTable,
    first: usize,
    others: &[usize],
    there: &RowCounts,
) -> u128
    requires members { (b : ℕ) → b < length makers.now → slice_index makers.now b < 128 }
    requires first { first < length counts.now.rows }
    requires others { AllByRecursion (λ p. p < length counts.now.rows) others.now }
    ensures { HasThose result (counts_more makers.now (joined_counts counts.now.rows first others.now) (slice_index there.now.row)) }
{
    let mut mask = members_apart(makers, &row_of(counts, first), there);
    for row in others {
        mask = join_masks(mask, members_apart(makers, &row_of(counts, *row), there));
    }
    mask
}

/// The set with the member, if it is to have it.
fn with_if(mask: u128, member: Member, has: bool) -> u128
    requires { member < 128 }
    ensures { (m : ℕ) → mask_has result m ≡ (mask_has mask m || (has && member == m)) }
{
    if has { with_member(mask, member) } else { mask }
}

/// The members with a branch of which the first row counts more than the other.
#[tactic(auto, using(hg_model::proofs::PlacesLaws::some_steps))]
fn members_apart(makers: &[Member], counts: &RowCounts, other: &RowCounts) -> u128
    requires { (b : ℕ) → b < length makers.now → slice_index makers.now b < 128 }
    ensures { HasThose result (counts_more makers.now (slice_index counts.now.row) (slice_index other.now.row)) }
{
    let mut mask = 0;
    let mut b = 0;
    while b < makers.len() {
        mask = with_if(mask, makers[b], other.at(b) < counts.at(b));
        b = counts.next_after(b, makers.len());
    }
    mask
}

/// The members with a branch of which the next parent counts more than each of these rows.
#[tactic(auto, using(hg_model::proofs::PlacesLaws::some_steps))]
fn members_past(
    makers: &[Member],
    counts: &CountTable,
    first: usize,
    others: &[usize],
    there: &RowCounts,
) -> u128
    requires members { (b : ℕ) → b < length makers.now → slice_index makers.now b < 128 }
    requires first { first < length counts.now.rows }
    requires others { AllByRecursion (λ p. p < length counts.now.rows) others.now }
    ensures { HasThose result (counts_more makers.now (slice_index there.now.row) (joined_counts counts.now.rows first others.now)) }
{
    let here = row_of(counts, first);
    let mut mask = 0;
    let mut b = 0;
    while b < makers.len() {
        let most = greatest(here.at(b), counts, others, b);
        mask = with_if(mask, makers[b], most < there.at(b));
        b = there.next_after(b, makers.len());
    }
    mask
}

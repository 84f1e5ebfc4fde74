ghost use Rattle.std.specs.Prelude.{◌≡◌, ◌<◌, ◌≤◌, ◌*◌, ◌^◌, ℕ, true, length, slice_index};
ghost use Rattle.std.specs.List.{AllByRecursion};
ghost use Rattle.hg_model.specs.Places.{count_below};
ghost use Rattle.hg_bits.specs.Words.{has_bit};
ghost use Rattle.hg_votes.specs.Slots.{slot_tally};
ghost use Rattle.hg_votes.specs.Tallies.{tally_in, tally_of};

use hg_bits::has_bit;
use hg_model::{Ballot, Sight, is_shaped};

/// What the voters of a witness weigh who vote yes, and what those do who vote no.
#[derive(Clone, Copy)]
pub struct Tally {
    pub yes: u64,
    pub no: u64,
}

/// The witnesses of a round, by slot, and as a set of slots those of them who vote yes.
#[derive(Clone, Copy)]
pub struct Voted<'a> {
    pub rows: &'a [usize],
    pub yes: &'a [u64],
}

/// What the voters weigh who vote yes, and who vote no. They, the stakes of rows and the ballots are by place in the graph.
/// SWIRLDS-TR-2016-01, procedure decideFame.
pub fn count_votes(voters: &[usize], stakes: &[u32], ballots: &[Ballot]) -> Tally
    requires known { AllByRecursion (λ w. w < length ballots.now) voters.now }
    requires stakes { length ballots.now ≤ length stakes.now }
    requires short { length voters.now < 2 ^ 32 }
    ensures { result ≡ tally_of (slice_index stakes.now) ballots.now voters.now }
{
    let mut yes = 0u64;
    let mut no = 0u64;
    for w in voters {
        let stake = u64::from(stakes[*w]);
        if ballots[*w].vote {
            yes += stake;
        } else {
            no += stake;
        }
    }
    Tally { yes, no }
}

/// How many of the slots are also in the other set, and how many are not.
fn count_slots(voters: &[u64], voted: &[u64]) -> Tally
    requires wide { length voters.now ≤ length voted.now }
    requires short { count_below (64 * length voters.now) (has_bit voters.now) < 2 ^ 32 }
    ensures value { result ≡ slot_tally (64 * length voters.now) (λ _. 1) voters.now voted.now }
    ensures yes { result.yes < 2 ^ 32 }
    ensures no { result.no < 2 ^ 32 }
{
    let mut yes = 0u64;
    let mut no = 0u64;
    for k in 0..voters.len() {
        yes += u64::from((voters[k] & voted[k]).count_ones());
        no += u64::from((voters[k] & !voted[k]).count_ones());
    }
    Tally { yes, no }
}

/// Whether the set has the slot, which may be behind all its words.
fn is_in(words: &[u64], slot: usize) -> bool
    ensures { result ≡ has_bit words.now slot }
{
    slot / 64 < words.len() && has_bit(words, slot)
}

/// What the voters weigh who vote yes, and what the others do, slot by slot.
#[tactic(auto, using(hg_model::proofs::PlacesLaws::weight_steps))]
fn sum_slots<S: Sight>(sight: &S, rows: &[usize], voters: &[u64], voted: &[u64]) -> Tally
    requires short { length rows.now < 2 ^ 32 }
    requires places { AllByRecursion (λ w. w < length (S.shape sight.now).links) rows.now }
    ensures { result ≡ tally_in (S.shape sight.now) (length rows.now) rows.now voters.now voted.now }
{
    let mut yes = 0u64;
    let mut no = 0u64;
    for slot in 0..rows.len() {
        if is_in(voters, slot) {
            let stake = u64::from(sight.stake(sight.creator(rows[slot])));
            if is_in(voted, slot) {
                yes += stake;
            } else {
                no += stake;
            }
        }
    }
    Tally { yes, no }
}

/// What the voters weigh who vote yes, and what the others do: both sets are of slots of these rows. Where all members have
/// one stake they are counted. SWIRLDS-TR-2016-01, procedure decideFame.
pub fn weigh_slots<S: Sight>(sight: &S, rows: &[usize], voters: &[u64], voted: &[u64]) -> Tally
    requires short { length rows.now < 2 ^ 32 }
    requires places { AllByRecursion (λ w. w < length (S.shape sight.now).links) rows.now }
    requires within { (i : ℕ) → has_bit voters.now i ≡ true → i < length rows.now }
    requires wide { length voters.now ≤ length voted.now }
    ensures { result ≡ tally_in (S.shape sight.now) (64 * length voters.now) rows.now voters.now voted.now }
{
    is_shaped(sight);
    match sight.even() {
        None => sum_slots(sight, rows, voters, voted),
        Some(stake) => {
            let counted = count_slots(voters, voted);
            let each = u64::from(stake);
            Tally {
                yes: counted.yes * each,
                no: counted.no * each,
            }
        }
    }
}

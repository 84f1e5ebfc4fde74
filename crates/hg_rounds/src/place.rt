ghost use Rattle.std.specs.Prelude.{◌≡◌, ℕ, ◌<◌, ◌≤◌, ◌+◌, ◌-◌, ◌^◌, [], ◌∷◌, ◌++◌, cond, length, nat_le, nat_lt};
ghost use Rattle.hg_model.specs.Links.{first_place, parents};
ghost use Rattle.hg_model.specs.Stakes.{total};
ghost use Rattle.hg_model.specs.Rounds.{parent_round};
ghost use Rattle.hg_model.specs.Seeing.{is_supermajority};
ghost use Rattle.hg_model.specs.Standings.{greatest_in, round_at};
ghost use Rattle.hg_model.specs.GraphWords.{standings_in};
ghost use Rattle.std.specs.List.{AllByRecursion, list_all};
ghost use Rattle.hg_rounds.specs.Tabled.{before_last, is_last_row_witness, last_parents, last_row_round, rows_weight, seen_count, seen_weight, standing, TellsWeights};

use crate::table::RoundTable;
use hg_model::{Rounds, Sight, is_shaped};

/// The round of the sight's last row, and whether that row is a witness, from the table of the rows before it.
/// It asks what the row strongly sees of the witnesses of one round alone. Takes no memory.
pub fn place_round<S: Sight>(sight: &S, table: &RoundTable, parents: &[usize]) -> (u32, bool)
    requires some { 0 < length (S.shape sight.now).links }
    requires parents { parents.now ≡ last_parents (S.shape sight.now) }
    requires before { table.now.standings ≡ standings_in (before_last (S.shape sight.now)) }
    requires weights { TellsWeights (S.shape sight.now) table.now.standings table.now.weights }
    ensures round { result.0 ≡ last_row_round (S.shape sight.now) }
    ensures witness { result.1 ≡ is_last_row_witness (S.shape sight.now) }
    // What `RoundTable::add` needs, and does.
    ensures first { 1 ≤ result.0 }
    ensures next { result.0 ≤ greatest_in table.now.standings + 1 }
    ensures whole { table.now.standings ++ standing result.0 result.1 ∷ [] ≡ standings_in (S.shape sight.now) }
{
    let last = sight.rows() - 1;
    let greatest = parent_round(table, parents);
    let many = rises(
        sight,
        parents,
        table.witnesses(greatest),
        last,
        table.weight(greatest),
    );
    let round = next_round(greatest, many);
    (round, is_first(table, parents, round))
}

/// The greatest of the parents' rounds, or 1.
#[tactic(auto, using(crate::proofs::PlaceLaws::parent_round_steps))]
fn parent_round(table: &RoundTable, parents: &[usize]) -> u32
    requires { AllByRecursion (λ p. p < length table.now.standings) parents.now }
    ensures { result ≡ parent_round (round_at table.now.standings) parents.now }
{
    let mut greatest = 1;
    for place in parents {
        greatest = table.round(*place).max(greatest);
    }
    greatest
}

/// The least number that is more than two thirds of the total.
#[tactic(auto, using(hg_model::proofs::StakeLaws::least_supermajority))]
fn least_supermajority(total: u64) -> u64
    requires { total < 2 ^ 63 }
    ensures { (stake : ℕ) → is_supermajority total stake ≡ nat_le result stake }
{
    2 * total / 3 + 1
}

/// Whether row `x`, on parents at these places, strongly sees many of these rows, as `sees_many` tells. Without parents it sees no
/// earlier row, and none is asked.
fn rises<S: Sight>(sight: &S, on: &[usize], rows: &[usize], x: usize, weight: u64) -> bool
    requires place { x < length (S.shape sight.now).links }
    requires on { on.now ≡ parents (S.shape sight.now).links x }
    requires places { AllByRecursion (λ y. y < x) rows.now }
    requires weight { weight ≡ rows_weight (S.shape sight.now) rows.now }
    ensures { result ≡ is_supermajority (total (S.shape sight.now).members) (seen_weight (S.shape sight.now) x rows.now) }
{
    is_shaped(sight);
    !on.is_empty() && sees_many(sight, rows, x, weight)
}

/// Whether those of these rows that row `x` strongly sees weigh more than two thirds of the total. `weight` is what all of
/// them weigh together. Where all members have the same stake, rows are counted.
fn sees_many<S: Sight>(sight: &S, rows: &[usize], x: usize, weight: u64) -> bool
    requires place { x < length (S.shape sight.now).links }
    requires places { AllByRecursion (λ y. y < x) rows.now }
    requires weight { weight ≡ rows_weight (S.shape sight.now) rows.now }
    ensures { result ≡ is_supermajority (total (S.shape sight.now).members) (seen_weight (S.shape sight.now) x rows.now) }
{
    is_shaped(sight);
    if sight.even().unwrap_or(0) > 0 {
        sees_count(
            sight,
            rows,
            x,
            least_supermajority(u64::from(sight.members())),
        )
    } else {
        let wanted = least_supermajority(sight.total());
        sees_weight(sight, rows, x, wanted, weight)
    }
}

/// Whether row `x` strongly sees so many of these rows. Asks the last ones first, and stops where that is settled.
fn sees_count<S: Sight>(sight: &S, rows: &[usize], x: usize, wanted: u64) -> bool
    requires place { x < length (S.shape sight.now).links }
    requires places { AllByRecursion (λ y. y < x) rows.now }
    ensures { result ≡ nat_le wanted (seen_count (S.shape sight.now) x rows.now) }
{
    let mut missing = wanted;
    let mut left = rows.len();
    while 0 < missing && missing <= left as u64 {
        left -= 1;
        if sight.strongly_sees(x, rows[left]) {
            missing -= 1;
        }
    }
    missing == 0
}

/// Whether those of these rows that row `x` strongly sees weigh so much; together they weigh `weight`. Asks the last ones
/// first, and stops where that is settled.
fn sees_weight<S: Sight>(sight: &S, rows: &[usize], x: usize, wanted: u64, weight: u64) -> bool
    requires place { x < length (S.shape sight.now).links }
    requires places { AllByRecursion (λ y. y < x) rows.now }
    requires weight { weight ≡ rows_weight (S.shape sight.now) rows.now }
    ensures { result ≡ nat_le wanted (seen_weight (S.shape sight.now) x rows.now) }
{
    let mut missing = wanted;
    let mut rest = weight;
    let mut left = rows.len();
    while 0 < missing && missing <= rest {
        left -= 1;
        let y = rows[left];
        let stake = u64::from(sight.stake(sight.creator(y)));
        rest -= stake;
        if sight.strongly_sees(x, y) {
            missing = missing.saturating_sub(stake);
        }
    }
    missing == 0
}

/// The round after this one where a row strongly sees many of its witnesses, or this one.
fn next_round(round: u32, many: bool) -> u32
    requires { round < 2 ^ 32 - 1 }
    ensures { result ≡ cond many (round + 1) round }
{
    if many { round + 1 } else { round }
}

/// Whether a row of this round has no self-parent, or one of an earlier round.
fn is_first(table: &RoundTable, parents: &[usize], round: u32) -> bool
    requires { AllByRecursion (λ p. p < length table.now.standings) parents.now }
    ensures { result ≡ list_all (λ p. nat_lt (round_at table.now.standings p) round) (first_place parents.now) }
{
    match parents {
        [] => true,
        [self_place, ..] => table.round(*self_place) < round,
    }
}

//! The same loops over numbers of 16 bits, of which more stand in a register.

ghost use Rattle.std.specs.Prelude.{◌≡◌, ◌<◌, ◌^◌, length, slice_index};
ghost use Rattle.hg_model.specs.Places.{count_below, weight_below};
ghost use Rattle.hg_model.specs.Stakes.{total};
ghost use Rattle.hg_bits.specs.Lanes.{is_at_least, IsMaximum};

/// In how many lanes the row is at least the other.
#[tactic(auto, using(hg_model::proofs::PlacesLaws::count_steps))]
pub fn count_ge(row: &[u16], other: &[u16]) -> u16
    requires same { length row.now ≡ length other.now }
    requires short { length row.now < 2 ^ 16 }
    ensures { result ≡ count_below (length row.now) (is_at_least row.now other.now) }
{
    let mut count = 0;
    for i in 0..row.len() {
        if other[i] <= row[i] {
            count += 1;
        }
    }
    count
}

/// What the lanes weigh in which the row is at least the other.
#[tactic(auto, using(crate::proofs::StakeLaws::lane_steps))]
pub fn weigh_ge(row: &[u16], other: &[u16], weights: &[u32]) -> u64
    requires same { length row.now ≡ length other.now }
    requires weights { length row.now ≡ length weights.now }
    requires short { length row.now < 2 ^ 32 }
    ensures { result ≡ weight_below (slice_index weights.now) (length row.now) (is_at_least row.now other.now) }
{
    let mut sum = 0;
    for i in 0..row.len() {
        sum += u64::from(weights[i]) * u64::from(other[i] <= row[i]);
    }
    sum
}

/// The same, where all lanes together weigh less than 2^32.
#[tactic(auto, using(crate::proofs::StakeLaws::lane_steps))]
pub fn weigh_light_ge(row: &[u16], other: &[u16], weights: &[u32]) -> u32
    requires same { length row.now ≡ length other.now }
    requires weights { length row.now ≡ length weights.now }
    requires light { total weights.now < 2 ^ 32 }
    ensures { result ≡ weight_below (slice_index weights.now) (length row.now) (is_at_least row.now other.now) }
{
    let mut sum = 0;
    for i in 0..row.len() {
        sum += weights[i] * u32::from(other[i] <= row[i]);
    }
    sum
}

/// Raises each lane of the row to that of the other.
pub fn max_into(row: &mut [u16], other: &[u16])
    requires { length row.old ≡ length other.now }
    ensures { IsMaximum row.old other.now row.new }
{
    for i in 0..other.len() {
        row[i] = row[i].max(other[i]);
    }
}

ghost use Rattle.std.specs.Prelude.{◌≡◌, ◌<◌, ◌≤◌, ◌*◌, ◌/◌, ◌&&◌, ◌||◌, ◌==◌, ℕ, length, replicate};
ghost use Rattle.std.specs.List.{AllByRecursion};
ghost use Rattle.hg_model.specs.GraphWords.{strongly_sees_in};
ghost use Rattle.hg_bits.specs.Words.{has_bit};
ghost use Rattle.hg_votes.specs.Slots.{HoldsSlots};

use hg_bits::set_bit;
use hg_model::Sight;

/// Puts the slot into the set, if it is to be in it.
pub fn mark(words: &mut [u64], slot: usize, is_in: bool)
    requires { slot / 64 < length words.old }
    ensures len { length words.new ≡ length words.old }
    ensures bits { (i : ℕ) → has_bit words.new i ≡ (is_in && i == slot || has_bit words.old i) }
{
    if is_in {
        set_bit(words, slot);
    }
}

/// Puts into an empty set the slots of those of the rows that row `y` strongly sees.
pub fn mark_seen<S: Sight>(words: &mut [u64], sight: &S, rows: &[usize], y: usize)
    requires empty { words.old ≡ replicate (length words.old) 0 }
    requires room { length rows.now ≤ 64 * length words.old }
    requires place { y < length (S.shape sight.now).links }
    requires places { AllByRecursion (λ w. w < length (S.shape sight.now).links) rows.now }
    ensures len { length words.new ≡ length words.old }
    ensures seen { HoldsSlots words.new rows.now (strongly_sees_in (S.shape sight.now) y) }
{
    for slot in 0..rows.len() {
        mark(words, slot, sight.strongly_sees(y, rows[slot]));
    }
}

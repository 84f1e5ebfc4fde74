ghost use Rattle.std.specs.Prelude.{◌≡◌, ◌<◌, ◌≤◌, ◌+◌, ◌*◌, ◌/◌, ◌^◌, ◌||◌, ◌==◌, ℕ, length, slice_index};
ghost use Rattle.hg_bits.specs.Words.{Finds, has_bit, is_bit_over, is_set};

/// Whether bit `i` is 1.
#[tactic(auto, unfolding(crate::specs::Words::has_bit), using(crate::proofs::WordLaws::bit_tests))]
pub fn has_bit(words: &[u64], i: usize) -> bool
    requires { i / 64 < length words.now }
    ensures { result ≡ has_bit words.now i }
{
    (words[i / 64] >> (i % 64)) & 1 == 1
}

/// Makes bit `i` 1.
pub fn set_bit(words: &mut [u64], i: usize)
    requires { i / 64 < length words.old }
    ensures len { length words.new ≡ length words.old }
    ensures bits { (k : ℕ) → has_bit words.new k ≡ (k == i || has_bit words.old k) }
{
    words[i / 64] |= 1 << (i % 64);
}

/// Makes each bit 1 that is so in the others.
pub fn join(words: &mut [u64], others: &[u64])
    requires { length others.now ≤ length words.old }
    ensures len { length words.new ≡ length words.old }
    ensures bits { (k : ℕ) → has_bit words.new k ≡ (has_bit words.old k || has_bit others.now k) }
{
    for k in 0..others.len() {
        words[k] |= others[k];
    }
}

/// The first place from `from` on whose bit is 1 here and 0 in the others.
pub fn first_over(words: &[u64], others: &[u64], from: usize) -> Option<usize>
    requires { 64 * length words.now ≤ 2 ^ 64 }
    ensures { Finds (is_bit_over words.now others.now) from (64 * length words.now) result }
{
    for k in from / 64..words.len() {
        if let Some(i) = first_bit(word_over(words, others, k), low_of(k, from)) {
            return Some(64 * k + i);
        }
    }
    None
}

/// Where in word `k` the places from `from` on begin.
fn low_of(k: usize, from: usize) -> usize
    ensures within { result < 64 }
    ensures first { k ≡ from / 64 → 64 * k + result ≡ from }
    ensures later { from / 64 < k → result ≡ 0 }
{
    if k == from / 64 { from % 64 } else { 0 }
}

/// The bits of word `k` that are 0 in the others.
fn word_over(words: &[u64], others: &[u64], k: usize) -> u64
    requires { k < length words.now }
    ensures { (i : ℕ) → i < 64 → is_set result i ≡ is_bit_over words.now others.now (64 * k + i) }
{
    words[k] & !word_at(others, k)
}

/// The word at place `k`, 0 past the end.
fn word_at(words: &[u64], k: usize) -> u64
    ensures { result ≡ slice_index words.now k }
{
    if k < words.len() { words[k] } else { 0 }
}

/// The first place from `low` on whose bit in the word is 1.
fn first_bit(word: u64, low: usize) -> Option<usize>
    requires { low < 64 }
    ensures { Finds (is_set word) low 64 result }
{
    let left = word >> low;
    if left == 0 {
        return None;
    }
    Some(low + left.trailing_zeros() as usize)
}

ghost use Rattle.std.specs.Prelude.{◌≡◌, ℕ, ◌<◌, ◌≤◌, ◌-◌, ◌^◌, All, length, replicate, slice_index};
ghost use Rattle.hg_model.specs.Counts.{numbers_of};
ghost use Rattle.hg_model.specs.Prefix.{links_of};
ghost use Rattle.hg_order.specs.Famous.{AreFamous};
ghost use Rattle.hg_order.specs.Counted.{AreLowered, IfShared};

use hg_model::{Counts, Prefix, Sight, is_of_graph};

/// For each member one more than the place of the last of its rows that all unique famous witnesses of a round have as
/// ancestor, or 0; `None` where the ancestors of one of them are not counted, or there are no witnesses. A row by the
/// member is received where it stands below.
pub fn least_counts<P: Prefix>(p: &P, famous: &[usize]) -> Option<[u32; 128]>
    requires { AreFamous (P.graph p.now) famous.now }
    ensures { IfShared (P.graph p.now) famous.now result }
{
    is_of_graph(p);
    if famous.is_empty() {
        return None;
    }
    let mut least = no_bounds();
    for w in famous {
        match p.counts(*w) {
            None => return None,
            Some(counts) => lower(&mut least, counts),
        }
    }
    Some(least)
}

/// Numbers that each count lowers to itself.
fn no_bounds() -> [u32; 128]
    ensures { result ≡ replicate 128 (2 ^ 32 - 1) }
{
    [u32::MAX; 128]
}

/// Lowers as many of the first numbers as there are counts to these.
fn lower(numbers: &mut [u32], counts: Counts<'_>)
    requires { length (numbers_of counts) ≤ length numbers.old }
    ensures lowered { AreLowered numbers.old (numbers_of counts.entry) numbers.new }
    ensures short { let all = numbers_of counts.entry in (m : ℕ) → m < length all → slice_index all m ≤ 2 ^ 32 - 1 }
{
    match counts {
        Counts::Narrow(counts) => lower_to_narrow(numbers, counts),
        Counts::Wide(counts) => lower_to_wide(numbers, counts),
    }
}

fn lower_to_narrow(numbers: &mut [u32], others: &[u16])
    requires { length others.now ≤ length numbers.old }
    ensures lowered { AreLowered numbers.old others.now numbers.new }
    ensures short { (m : ℕ) → m < length others.now → slice_index others.now m ≤ 2 ^ 32 - 1 }
{
    for i in 0..others.len() {
        numbers[i] = numbers[i].min(u32::from(others[i]));
    }
}

fn lower_to_wide(numbers: &mut [u32], others: &[u32])
    requires { length others.now ≤ length numbers.old }
    ensures lowered { AreLowered numbers.old others.now numbers.new }
    ensures short { (m : ℕ) → m < length others.now → slice_index others.now m ≤ 2 ^ 32 - 1 }
{
    for i in 0..others.len() {
        numbers[i] = numbers[i].min(others[i]);
    }
}

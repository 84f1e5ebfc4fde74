ghost use Rattle.std.specs.Prelude.{◌≤◌, length};

use crate::forking::{FORKED, Facts, TWO, tells};
use crate::growing::{Made, add_all};
use crate::telling::equal;
use hg_ancestry::BitSight;
use hg_model::{Growing, Memory, Sight};
use std::alloc::Global;

/// The first six rows, and then with the others of `FORKED` once more.
fn goes_on(first: &mut BitSight) -> Result<bool, Memory> {
    let is_cut = first.rows() == 6 && first.sees(5, 2) && first.self_parent(5) == Some(0);
    Ok(is_cut && add_all(first, &FORKED[6..])? && tells(&*first, Facts::Forked))
}

fn first_goes_on(sight: &BitSight) -> Result<bool, Memory> {
    let mut first = sight.prefix(sight.rows().min(6))?;
    goes_on(&mut first)
}

fn told_in(sight: &mut BitSight, rows: &[Made], facts: Facts) -> Result<[bool; 3], Memory> {
    let goes = match facts {
        Facts::Forked => add_all(sight, rows)? && first_goes_on(&*sight)?,
        _ => add_all(sight, rows)?,
    };
    Ok([goes, sight.rows() == rows.len(), tells(&*sight, facts)])
}

/// Whether the rows fit, go on from the first ones, and are told of.
fn told(alloc: Global, stakes: &[u32], rows: &[Made], facts: Facts) -> Result<[bool; 3], Memory>
    requires { length stakes.now ≤ 128 }
{
    let mut sight = BitSight::new(alloc, stakes)?;
    told_in(&mut sight, rows, facts)
}

#[test]
fn bits_tell_of_each_graph(rt: HostRuntime) -> Result<(), Memory> {
    let alloc = rt.alloc();
    equal(
        &rt,
        0,
        told(alloc, &[1; 4], &FORKED, Facts::Forked)?,
        [true; 3],
    );
    equal(
        &rt,
        1,
        told(alloc, &[1, 1, 7, 1], &FORKED, Facts::ByStake)?,
        [true; 3],
    );
    equal(&rt, 2, told(alloc, &[1; 2], &TWO, Facts::Two)?, [true; 3]);
    Ok(())
}

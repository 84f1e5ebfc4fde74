ghost use Rattle.std.specs.Prelude.{◌≡◌, ◌≤◌, length, OnOk};
ghost use Rattle.hg_model.specs.Shape.{FitsLink, link_of};
ghost use Rattle.hg_forks.specs.SelfLinks.{self_shape};

use crate::forking::FORKED;
use crate::growing::{fits, self_place};
use crate::telling::equal;
use hg_ancestry::BitSight;
use hg_forks::Watch;
use hg_model::{Growing, Member, Memory, Sight};
use std::process::Abort;

/// What the four members weigh.
const STAKES: [u32; 4] = [2, 3, 5, 7];

/// How many members have a fork once each of the rows is there, and their stake: the last member's rows 3 and 7 stand on
/// one row.
const FORKERS: [(u32, u64); 10] = [
    (0, 0),
    (0, 0),
    (0, 0),
    (0, 0),
    (0, 0),
    (0, 0),
    (0, 0),
    (1, 7),
    (1, 7),
    (1, 7),
];

/// The creator of a row that is not added, its parents, and what the members weigh that would have a fork with it: on the
/// last row, on an earlier one, and on none; the last by a member that has a fork already.
const OTHERS: [(Member, &[usize], u64); 4] = [
    (2, &[9, 8], 7),
    (2, &[5, 8], 12),
    (1, &[], 10),
    (3, &[], 7),
];

/// What the watch says of a row that fits the same rows in the sight.
fn would(watch: &Watch, sight: &BitSight, parents: &[usize], creator: Member) -> u64
    requires same { watch.now.shape ≡ self_shape sight.now.shape }
    requires fits { FitsLink sight.now.shape.members sight.now.shape.links (link_of creator parents.now) }
{
    watch.would(creator, self_place(parents))
}

/// The row comes to both.
fn add(watch: &mut Watch, sight: &mut BitSight, parents: &[usize], creator: Member)
    requires same { watch.old.shape ≡ self_shape sight.old.shape }
    requires fits { FitsLink sight.old.shape.members sight.old.shape.links (link_of creator parents.now) }
    requires watch { 1 ≤ watch.old.room }
    requires sight { 1 ≤ sight.old.room }
    requires short { length sight.old.shape.links ≤ 1000 }
    ensures { watch.new.shape ≡ self_shape sight.new.shape }
{
    watch.add(creator, self_place(parents));
    sight.extend(parents, creator);
}

/// Adds the row to both; it fits.
fn grow(
    rt: &impl Abort,
    watch: &mut Watch,
    sight: &mut BitSight,
    parents: &[usize],
    creator: Member,
) -> Result<(), Memory>
    requires same { watch.old.shape ≡ self_shape sight.old.shape }
    ensures { OnOk result (watch.new.shape ≡ self_shape sight.new.shape) }
{
    watch.reserve()?;
    sight.reserve()?;
    assert!(rt; sight.rows() <= 1000 && fits(&*sight, parents, creator));
    add(watch, sight, parents, creator);
    Ok(())
}

/// With each row members of so much stake would fork, and do once it is there.
fn tells_all(rt: &impl Abort, watch: &mut Watch, sight: &mut BitSight) -> Result<(), Memory>
    requires { watch.old.shape ≡ self_shape sight.old.shape }
    ensures { OnOk result (watch.new.shape ≡ self_shape sight.new.shape) }
{
    for x in 0..10 {
        let (creator, parents) = FORKED[x];
        assert!(rt; fits(&*sight, parents, creator));
        equal(rt, x, would(watch, sight, parents, creator), FORKERS[x].1);
        grow(rt, watch, sight, parents, creator)?;
        equal(rt, x, (watch.forkers(), watch.forking()), FORKERS[x]);
    }
    Ok(())
}

/// What a row more would do, of each of the others.
fn tells_others(rt: &impl Abort, watch: &Watch, sight: &BitSight)
    requires { watch.now.shape ≡ self_shape sight.now.shape }
{
    for (creator, parents, stake) in &OTHERS {
        assert!(rt; fits(sight, *parents, *creator));
        let found = would(watch, sight, *parents, *creator);
        equal(rt, usize::from(*creator), found, *stake);
    }
}

/// The members that have a fork, and two rows that are it.
fn tells_pairs(rt: &impl Abort, watch: &Watch, sight: &BitSight)
    requires { watch.now.shape ≡ self_shape sight.now.shape }
{
    assert!(rt; sight.members() == 4);
    equal(rt, 3, watch.pair_of(3), Some((3, 7)));
    equal(rt, 2, watch.pair_of(2), None);
    equal(rt, 10, watch.forkers(), 1);
}

#[test]
fn tells_a_fork_when_its_second_row_comes(rt: HostRuntime) -> Result<(), Memory> {
    let mut watch = Watch::new(rt.alloc(), &STAKES)?;
    let mut sight = BitSight::new(rt.alloc(), &STAKES)?;
    tells_all(&rt, &mut watch, &mut sight)?;
    tells_others(&rt, &watch, &sight);
    tells_pairs(&rt, &watch, &sight);
    Ok(())
}

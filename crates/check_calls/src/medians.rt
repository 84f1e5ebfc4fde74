use crate::playing::equal;
use crate::publishing::first_members;
use crate::worlds::Held;
use hg_model::{Member, Memory, Placed};
use hg_world::World;
use std::process::Abort;

/// The times of the four members' first events.
const BEGINS: [(Member, u64); 4] = [(0, 69), (1, 72), (2, 22), (3, 77)];

/// Then they sync in a ring, four times each: who does, with whom, and the time. On some lines the times fall.
const SYNCS: [(Member, Member, u64); 16] = [
    (1, 0, 42),
    (2, 1, 85),
    (3, 2, 86),
    (0, 3, 37),
    (1, 0, 102),
    (2, 1, 116),
    (3, 2, 109),
    (0, 3, 122),
    (1, 0, 129),
    (2, 1, 168),
    (3, 2, 165),
    (0, 3, 120),
    (1, 0, 186),
    (2, 1, 174),
    (3, 2, 175),
    (0, 3, 177),
];

/// What the first three rounds receive by the places of A's graph, the round, and the second of the four times at which
/// the members' lines first had it. They are those of a program in another language.
const ORDER: [(usize, u32, u64); 12] = [
    (2, 2, 37),
    (4, 2, 42),
    (0, 2, 69),
    (3, 2, 72),
    (1, 2, 77),
    (5, 2, 85),
    (6, 2, 86),
    (7, 2, 102),
    (8, 3, 109),
    (9, 3, 116),
    (10, 3, 122),
    (11, 3, 129),
];

fn begin_all(rt: &impl Abort, world: &mut World) -> Result<(), Memory> {
    for (member, time) in &BEGINS {
        assert!(rt; u32::from(*member) < world.members());
        world.make(*member, &[], *time, b"")?;
    }
    Ok(())
}

fn sync_all(rt: &impl Abort, world: &mut World) -> Result<(), Memory> {
    for (taker, peer, time) in &SYNCS {
        assert!(rt; u32::from(*taker) < world.members());
        assert!(rt; u32::from(*peer) < world.members());
        world.sync(*taker, *peer, *time, b"")?;
    }
    Ok(())
}

/// A's node orders so.
fn orders(rt: &impl Abort, world: &mut World) -> Result<(), Memory> {
    assert!(rt; 0 < world.members());
    world.settle(0)?;
    let node = world.node(0);
    equal(rt, (node.closed(), node.kept().len()), (3, 12));
    for (placed, wanted) in node.kept().iter().zip(&ORDER) {
        let Placed {
            place,
            received,
            time,
        } = *placed;
        equal(rt, (place, received, time), *wanted);
    }
    Ok(())
}

#[test]
fn takes_the_lower_of_two_middle_times(rt: HostRuntime) -> Result<(), Memory> {
    let members = first_members(&rt, rt.alloc(), 4)?;
    let mut held = Held {
        world: World::new(rt.alloc(), &members)?,
    };
    begin_all(&rt, &mut held.world)?;
    sync_all(&rt, &mut held.world)?;
    orders(&rt, &mut held.world)
}

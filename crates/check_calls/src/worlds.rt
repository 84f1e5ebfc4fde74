ghost use Rattle.std.specs.Prelude.{◌≡◌, IfOk, length};
ghost use Rattle.hg_life.specs.NodeView.{kept_of};
ghost use Rattle.hg_world.specs.Parts.{AreOfOneList};
ghost use Rattle.hg_world.specs.World.{IsMemberOf, node_at};

use crate::members::two_members;
use crate::playing::{equal, placed};
use hg_gossip::Taken;
use hg_life::{ByteFault, Fault, MakeAnswer, PutAnswer, SyncMade, SyncReport};
use hg_model::{Bytes, Items, Member, Memory, Placed, Share};
use hg_node::Node;
use hg_sign::SharedTable;
use hg_world::{Reply, Step, World, steps_keep_sites};
use std::alloc::Global;
use std::process::Abort;

/// The tests hold a world in this alone: it goes in a call, which is proved once.
pub(crate) struct Held {
    pub world: World,
}

impl Drop for Held {
    fn drop(self) {
        let Held { world } = self;
        drop(world);
    }
}

impl Held {
    fn into_nodes(self) -> Vec<Node<SharedTable>>
        ensures { AreOfOneList result.items }
    {
        let Held { world } = self;
        world.into_nodes()
    }
}

fn begins(
    rt: &impl Abort,
    world: &mut World,
    member: Member,
    time: u64,
    place: usize,
) -> Result<(), Memory> {
    assert!(rt; u32::from(member) < world.members());
    equal(
        rt,
        world.make(member, &[], time, b"")?,
        MakeAnswer::Made(place),
    );
    Ok(())
}

fn syncs(
    rt: &impl Abort,
    world: &mut World,
    pair: (Member, Member),
    time: u64,
    taken: u64,
    place: usize,
) -> Result<(), Memory> {
    let (taker, peer) = pair;
    assert!(rt; u32::from(taker) < world.members());
    assert!(rt; u32::from(peer) < world.members());
    let report = SyncReport {
        taken,
        refused: 0,
        made: SyncMade::Row(place),
    };
    equal(rt, world.sync(taker, peer, time, b"")?, report);
    Ok(())
}

fn pulls(
    rt: &impl Abort,
    world: &mut World,
    pair: (Member, Member),
    wanted: (u64, u64),
) -> Result<(), Memory> {
    let (taker, peer) = pair;
    let (taken, refused) = wanted;
    assert!(rt; u32::from(taker) < world.members());
    assert!(rt; u32::from(peer) < world.members());
    equal(rt, world.pull(taker, peer)?, Taken { taken, refused });
    Ok(())
}

fn freezes(
    rt: &impl Abort,
    world: &mut World,
    member: Member,
    worker: u32,
    wanted: usize,
) -> Result<(), Memory> {
    assert!(rt; u32::from(member) < world.members());
    assert!(rt; worker < 16);
    let step = Step::Freeze {
        node: member,
        worker,
    };
    equal(rt, world.step(&step)?, Reply::Frozen(wanted));
    Ok(())
}

fn publishes(
    rt: &impl Abort,
    world: &mut World,
    member: Member,
    worker: u32,
    wanted: u32,
) -> Result<(), Memory> {
    assert!(rt; u32::from(member) < world.members());
    assert!(rt; worker < 16);
    let step = Step::Publish {
        node: member,
        worker,
        share: Share::new(0, 1),
    };
    equal(rt, world.step(&step)?, Reply::Published(wanted));
    Ok(())
}

/// What is to be told of a member's node: its rows, greatest round and greatest closed one, and its kept order.
fn stands(
    rt: &impl Abort,
    world: &World,
    member: Member,
    rows: usize,
    rounds: (u32, u32),
    kept: &[Placed],
) {
    assert!(rt; u32::from(member) < world.members());
    let node = world.node(member);
    equal(rt, node.rows(), rows);
    equal(rt, (node.greatest(), node.closed()), rounds);
    assert_eq!(rt; node.kept(), kept);
}

/// A and B make an event each and take turns. Worker 0 of B freezes its six rows before the last two come.
fn play(rt: &impl Abort, world: &mut World) -> Result<(), Memory> {
    begins(rt, world, 0, 1, 0)?;
    begins(rt, world, 1, 2, 0)?;
    syncs(rt, world, (0, 1), 3, 1, 2)?;
    syncs(rt, world, (1, 0), 4, 2, 3)?;
    syncs(rt, world, (0, 1), 5, 1, 4)?;
    syncs(rt, world, (1, 0), 6, 1, 5)?;
    freezes(rt, world, 1, 0, 6)?;
    syncs(rt, world, (0, 1), 7, 1, 6)?;
    syncs(rt, world, (1, 0), 8, 1, 7)?;
    Ok(())
}

/// An old prefix is published late, once. Another worker has frozen none.
fn publishes_late(rt: &impl Abort, world: &mut World) -> Result<(), Memory> {
    play(rt, world)?;
    publishes(rt, world, 1, 1, 0)?;
    publishes(rt, world, 1, 0, 2)?;
    publishes(rt, world, 1, 0, 0)?;
    stands(rt, world, 1, 8, (4, 1), &[]);
    assert!(rt; 1 < world.members());
    world.settle(1)?;
    let kept = [placed(1, 1), placed(0, 2), placed(2, 3), placed(3, 4)];
    stands(rt, world, 1, 8, (4, 2), &kept);
    stands(rt, world, 0, 7, (3, 0), &[]);
    Ok(())
}

#[test]
fn publishes_an_old_prefix(rt: HostRuntime) -> Result<(), Memory> {
    let members = two_members(&rt, rt.alloc())?;
    let mut held = Held {
        world: World::new(rt.alloc(), &members)?,
    };
    publishes_late(&rt, &mut held.world)
}

/// The nodes alone are a world again, in which no worker has frozen any rows.
fn again(alloc: Global, held: Held) -> Result<Held, Memory> {
    match World::from_nodes(alloc, held.into_nodes()) {
        Ok(world) => Ok(Held { world }),
        Err(nodes) => {
            drop(nodes);
            Err(Memory)
        }
    }
}

fn goes_on(rt: &impl Abort, world: &mut World) -> Result<(), Memory> {
    publishes(rt, world, 1, 0, 0)?;
    pulls(rt, world, (0, 1), (1, 0))?;
    pulls(rt, world, (0, 1), (0, 0))?;
    pulls(rt, world, (0, 0), (0, 0))?;
    stands(rt, world, 0, 8, (4, 0), &[]);
    freezes(rt, world, 1, 0, 8)?;
    publishes(rt, world, 1, 0, 4)?;
    Ok(())
}

#[test]
fn takes_nodes_apart(rt: HostRuntime) -> Result<(), Memory> {
    let members = two_members(&rt, rt.alloc())?;
    let mut held = Held {
        world: World::new(rt.alloc(), &members)?,
    };
    play(&rt, &mut held.world)?;
    let mut later = again(rt.alloc(), held)?;
    goes_on(&rt, &mut later.world)
}

/// A makes its first event, and bytes that spell none come to B.
fn runs(rt: &impl Abort, alloc: Global, world: &mut World) -> Result<(), Memory> {
    assert!(rt; 1 < world.members());
    let steps = [
        Step::Make {
            node: 0,
            others: Items::new(alloc),
            time: 1,
            payload: Bytes::new(alloc),
        },
        Step::Deliver {
            node: 1,
            bytes: Bytes::new(alloc),
        },
    ];
    let replies = world.run(alloc, &steps)?;
    let refused = PutAnswer::Refused(Fault::Bytes(ByteFault::Short(0)));
    let wanted = [Reply::Make(MakeAnswer::Made(0)), Reply::Put(refused)];
    assert_eq!(rt; replies.as_slice(), wanted.as_slice());
    Ok(())
}

#[test]
fn runs_two_steps(rt: HostRuntime) -> Result<(), Memory> {
    let members = two_members(&rt, rt.alloc())?;
    let mut held = Held {
        world: World::new(rt.alloc(), &members)?,
    };
    runs(&rt, rt.alloc(), &mut held.world)
}

/// A member's node settles: how many events its order has then.
fn ordered(world: &mut World, member: Member) -> Result<usize, Memory>
    requires { IsMemberOf world.old member }
    ensures { IfOk result (λ n. n ≡ length (kept_of (node_at world.new member))) }
{
    steps_keep_sites();
    world.settle(member)?;
    Ok(world.node(member).kept().len())
}

/// What A's node is told of by B's, once both have made an event.
fn meets(rt: &impl Abort, world: &mut World) -> Result<(), Memory> {
    begins(rt, world, 0, 1, 0)?;
    begins(rt, world, 1, 2, 0)?;
    syncs(rt, world, (0, 1), 3, 1, 2)?;
    assert!(rt; 0 < world.members());
    equal(rt, ordered(world, 0)?, 0);
    Ok(())
}

#[test]
fn orders_nothing_early(rt: HostRuntime) -> Result<(), Memory> {
    let members = two_members(&rt, rt.alloc())?;
    let mut held = Held {
        world: World::new(rt.alloc(), &members)?,
    };
    meets(&rt, &mut held.world)
}

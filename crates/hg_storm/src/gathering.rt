// What the nodes pull from each other after the joins.
ghost use Rattle.std.specs.Prelude.{◌≡◌, ◌<◌, All, OnOk, fold, length};
ghost use Rattle.hg_world.specs.World.{IsMemberOf};
ghost use Rattle.hg_storm.specs.Storm.{after_pulls, after_settling, gathered, pulls_from, pulls_of, pulls_to};

use hg_model::{Member, Memory};
use hg_world::World;

/// A member's node pulls from each of the others, in order.
fn pull_to(world: &mut World, first: Member, rest: &[Member]) -> Result<(), Memory>
    requires first { IsMemberOf world.old first }
    requires rest { All (IsMemberOf world.old) rest.now }
    ensures sites { length world.new.sites ≡ length world.old.sites }
    ensures pulls { OnOk result (world.new ≡ after_pulls world.old (pulls_to first rest.now)) }
{
    for peer in rest {
        world.pull(first, *peer)?;
    }
    Ok(())
}

/// Each of the others pulls from the member's node, in order.
fn pull_from(world: &mut World, first: Member, rest: &[Member]) -> Result<(), Memory>
    requires first { IsMemberOf world.old first }
    requires rest { All (IsMemberOf world.old) rest.now }
    ensures sites { length world.new.sites ≡ length world.old.sites }
    ensures pulls { OnOk result (world.new ≡ after_pulls world.old (pulls_from first rest.now)) }
{
    for taker in rest {
        world.pull(*taker, first)?;
    }
    Ok(())
}

/// These nodes settle, in order.
fn settle_each(world: &mut World, circle: &[Member]) -> Result<(), Memory>
    requires { All (IsMemberOf world.old) circle.now }
    ensures { OnOk result (world.new ≡ fold after_settling world.old circle.now) }
{
    for member in circle {
        world.settle(*member)?;
    }
    Ok(())
}

/// The first of these nodes pulls from each other one, and each other one pulls from it.
fn pull_each(world: &mut World, circle: &[Member]) -> Result<(), Memory>
    requires { All (IsMemberOf world.old) circle.now }
    ensures { OnOk result (world.new ≡ after_pulls world.old (pulls_of circle.now)) }
{
    let Some((first, rest)) = circle.split_first() else {
        return Ok(());
    };
    pull_to(world, *first, rest)?;
    pull_from(world, *first, rest)
}

/// The first of these nodes pulls from each other one, each other one pulls from it, and all settle.
pub(crate) fn gather(world: &mut World, circle: &[Member]) -> Result<(), Memory>
    requires { All (IsMemberOf world.old) circle.now }
    ensures { OnOk result (world.new ≡ gathered world.old circle.now) }
{
    pull_each(world, circle)?;
    settle_each(world, circle)
}

ghost use Rattle.std.specs.Prelude.{◌≡◌, IfOk, OnOk};
ghost use Rattle.hg_world.specs.World.{IsMemberOf};
ghost use Rattle.check_graphs.specs.Orders.{AreOneOrder, HaveGrown, orders_in};

use crate::agreeing::Compared;
use crate::forging::{damage, forged_event};
use crate::plan::members_of;
use crate::world_plan::{WorldPlan, world_plan};
use hg_check::{Dice, Score};
use hg_life::{Members, PutAnswer};
use hg_model::{Member, Memory, Share};
use hg_sign::MacTable;
use hg_world::World;
use std::alloc::Global;

/// So many steps there are at least.
const STEPS: u32 = 99;

/// At most so many come then, until events are ordered and there is a fork where the plan asks for one.
const MORE: u32 = 400;

/// How a world came out.
#[derive(Clone, Copy)]
pub struct Played {
    pub compared: Score,
    /// Whether some node has ordered events, some node has a fork where the plan asks for one, and no damaged bytes
    /// were taken.
    pub is_worth: bool,
}

/// What a world is played with.
#[derive(Clone, Copy)]
struct Game<'a> {
    alloc: Global,
    plan: WorldPlan,
    keys: &'a MacTable,
}

/// The member of this number, counted round the table.
fn member_at(world: &World, number: u32) -> Member
    ensures { IsMemberOf world.now result }
{
    world.is_world();
    (number % world.members()) as Member
}

/// A member that the dice give.
fn drawn(dice: &mut Dice, world: &World) -> Member
    ensures { IsMemberOf world.now result }
{
    member_at(world, dice.below(128))
}

/// The node of a member makes its first event.
fn begin(dice: &mut Dice, world: &mut World, number: u32) -> Result<(), Memory> {
    let member = member_at(world, number);
    world.make(member, &[], u64::from(dice.below(24)), &[])?;
    Ok(())
}

/// A worker of a node that the dice give, one of four, freezes its rows.
fn freeze(dice: &mut Dice, world: &mut World) {
    let member = drawn(dice, world);
    world.freeze(member, dice.below(4));
}

/// A worker publishes a share of what it froze.
fn publish(dice: &mut Dice, world: &mut World) -> Result<(), Memory> {
    let member = drawn(dice, world);
    let worker = dice.below(4);
    let shares = 1 + dice.below(3);
    world.publish(member, worker, Share::new(dice.below(shares), shares))?;
    Ok(())
}

/// Settles a node.
fn settle(world: &mut World, number: u32) -> Result<(), Memory> {
    let member = member_at(world, number);
    world.settle(member)
}

/// Whether some node has ordered events, and some node has a fork where there must be one.
fn is_worth(world: &World, must_fork: bool) -> bool {
    let mut has_order = false;
    let mut has_fork = !must_fork;
    for number in 0..world.members() {
        let node = world.node(member_at(world, number));
        has_order = has_order || !node.kept().is_empty();
        has_fork = has_fork || node.forkers() > 0;
    }
    has_order && has_fork
}

impl<'a> Game<'a> {
    /// The number of a member other than that of this number.
    fn other(&self, dice: &mut Dice, number: u32) -> u32 {
        number % self.plan.members + 1 + dice.below(self.plan.members - 1)
    }

    /// Three syncs, one after the other, each with the member that synced before.
    fn sync(&self, dice: &mut Dice, world: &mut World) -> Result<(), Memory> {
        let mut last = dice.below(self.plan.members);
        for _ in 0..3 {
            let number = self.other(dice, last);
            let (taker, peer) = (member_at(world, number), member_at(world, last));
            world.sync(taker, peer, u64::from(dice.below(24)), &[])?;
            last = number;
        }
        Ok(())
    }

    fn pull(&self, dice: &mut Dice, world: &mut World) -> Result<(), Memory> {
        let number = dice.below(self.plan.members);
        let (taker, peer) = (
            member_at(world, self.other(dice, number)),
            member_at(world, number),
        );
        world.pull(taker, peer)?;
        Ok(())
    }

    /// A member forks: an event that its node did not make comes to up to three nodes.
    fn fork(&self, dice: &mut Dice, world: &mut World) -> Result<(), Memory> {
        let Some((one, other)) = self.plan.forkers else {
            return Ok(());
        };
        let forker = if dice.is_one_in(2) { one } else { other };
        let first = drawn(dice, world);
        let creator = member_at(world, forker);
        let beside = member_at(world, self.other(dice, forker));
        let node = world.node(first);
        let Some(bytes) = forged_event(self.alloc, dice, self.keys, node, creator, beside)? else {
            return Ok(());
        };
        world.put(first, bytes.as_slice())?;
        for _ in 0..dice.below(3) {
            let member = drawn(dice, world);
            world.put(member, bytes.as_slice())?;
        }
        Ok(())
    }

    /// The bytes of a row come to a node once more, as they are or damaged. Answers whether damaged bytes were refused.
    fn repeat(&self, dice: &mut Dice, world: &mut World) -> Result<bool, Memory> {
        let (from, to) = (drawn(dice, world), drawn(dice, world));
        let node = world.node(from);
        if node.rows() == 0 {
            return Ok(true);
        }
        let place = dice.place(node.rows());
        let mut bytes = Vec::from_slice(self.alloc, node.bytes(place))?;
        let is_damaged = dice.is_one_in(2);
        if is_damaged {
            damage(dice, bytes.as_mut_slice());
        }
        let answer = world.put(to, bytes.as_slice())?;
        Ok(!is_damaged || matches!(answer, PutAnswer::Refused(_)))
    }

    /// What the dice give. Answers whether damaged bytes were refused.
    fn step(&self, dice: &mut Dice, world: &mut World) -> Result<bool, Memory> {
        match dice.below(20) {
            0 | 1 => self.pull(dice, world)?,
            2 | 3 => self.fork(dice, world)?,
            4 => return self.repeat(dice, world),
            5 => freeze_some(dice, world),
            6 | 7 => publish_some(dice, world)?,
            8 => settle(world, dice.below(self.plan.members))?,
            _ => self.sync(dice, world)?,
        }
        Ok(true)
    }

    /// A step, and then the comparison of the orders.
    fn step_compared(
        &self,
        dice: &mut Dice,
        world: &mut World,
        compared: &mut Compared,
    ) -> Result<bool, Memory>
        ensures none { compared.new.score.differ ≡ 0 → compared.old.score.differ ≡ 0 }
        ensures pairs { OnOk result (compared.new.score.differ ≡ 0 → AreOneOrder (orders_in world.new)) }
        ensures grown { OnOk result (compared.new.score.differ ≡ 0 → HaveGrown compared.old.before.items (orders_in world.new)) }
    {
        let refused = self.step(dice, world)?;
        compared.compare(self.alloc, world)?;
        Ok(refused)
    }

    /// The steps that there are at least.
    fn play_steps(
        &self,
        dice: &mut Dice,
        world: &mut World,
        compared: &mut Compared,
    ) -> Result<bool, Memory>
        ensures { compared.new.score.differ ≡ 0 → compared.old.score.differ ≡ 0 }
    {
        let mut refused = true;
        for step in 0..STEPS {
            refused = self.step_compared(dice, world, compared)? && refused;
        }
        Ok(refused)
    }

    /// More steps, until the world is worth it.
    fn play_more(
        &self,
        dice: &mut Dice,
        world: &mut World,
        compared: &mut Compared,
    ) -> Result<bool, Memory>
        ensures { compared.new.score.differ ≡ 0 → compared.old.score.differ ≡ 0 }
    {
        let mut refused = true;
        for step in 0..MORE {
            if is_worth(world, self.plan.forkers.is_some()) {
                break;
            }
            refused = self.step_compared(dice, world, compared)? && refused;
        }
        Ok(refused)
    }

    /// Each member's first event, and all steps. At the end all nodes are settled, and the orders compared once more.
    fn play(&self, dice: &mut Dice, world: &mut World) -> Result<Played, Memory>
        ensures { IfOk result (λ played. played.compared.differ ≡ 0 → AreOneOrder (orders_in world.new)) }
    {
        let mut compared = Compared::new(self.alloc);
        for number in 0..self.plan.members {
            begin(dice, world, number)?;
        }
        let mut refused = self.play_steps(dice, world, &mut compared)?;
        refused = self.play_more(dice, world, &mut compared)? && refused;
        for number in 0..self.plan.members {
            settle(world, number)?;
        }
        compared.compare(self.alloc, world)?;
        Ok(Played {
            compared: compared.score,
            is_worth: refused && is_worth(world, self.plan.forkers.is_some()),
        })
    }
}

/// A worker of each of four nodes freezes its rows.
fn freeze_some(dice: &mut Dice, world: &mut World) {
    for _ in 0..4 {
        freeze(dice, world);
    }
}

/// Two workers publish shares of what they froze.
fn publish_some(dice: &mut Dice, world: &mut World) -> Result<(), Memory> {
    publish(dice, world)?;
    publish(dice, world)
}

/// Plays the world of this number.
pub fn play_world(alloc: Global, number: u32) -> Result<Played, Memory> {
    let mut dice = Dice::new(number);
    let plan = world_plan(number, &mut dice);
    let members = members_of(alloc, plan.members, plan.coin, false)?;
    let keys = MacTable::new(alloc, &members)?;
    play_plan(alloc, &mut dice, plan, &members, &keys)
}

/// Plays it by its plan, among these members.
fn play_plan(
    alloc: Global,
    dice: &mut Dice,
    plan: WorldPlan,
    members: &Members,
    keys: &MacTable,
) -> Result<Played, Memory> {
    let mut world = World::new(alloc, members)?;
    let game = Game { alloc, plan, keys };
    game.play(dice, &mut world)
}

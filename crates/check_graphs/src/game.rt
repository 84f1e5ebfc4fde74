ghost use Rattle.std.specs.Prelude.{◌≡◌, IfOk, IsTrue};
ghost use Rattle.hg_life.specs.NodeView.{kept_of, last_closed_of};
ghost use Rattle.check_graphs.specs.Published.{IsPublished};

use crate::carried::is_carried;
use crate::comparing::{is_alike, is_front};
use crate::drafting::{Draft, next_draft, signed_event};
use crate::marks::{are_marked, count_marked};
use crate::plain::{is_published, rows_of, tables_of, whole_of};
use crate::plan::{Plan, asks_for_fork, members_of, plan_of};
use crate::proved::is_proved;
use crate::watched::Watched;
use hg_check::Dice;
use hg_life::{Members, PutAnswer};
use hg_model::{Memory, Share};
use hg_node::Node;
use hg_plain::{PlainPrefix, PlainWhole};
use hg_sign::MacTable;
use std::alloc::Global;

/// At most so many moments are held.
const HELD: u32 = 6;

/// At most so many events come behind those of the plan.
const MORE: u32 = 200;

/// A graph that is made.
#[derive(Drop)]
struct Game<'a> {
    alloc: Global,
    dice: Dice,
    plan: Plan,
    members: &'a Members,
    keys: &'a MacTable,
    watched: Watched<'a>,
}

impl<'a> Game<'a> {
    /// An event comes by another member. Answers whether the node has it under its name, if it was not refused.
    fn put(&mut self, draft: &Draft) -> Result<bool, Memory> {
        let (bytes, name) = signed_event(self.alloc, self.keys, draft)?;
        match self.watched.put(bytes.as_slice())? {
            PutAnswer::Accepted(place) | PutAnswer::Known(place) => {
                Ok(self.watched.node().place_of(&name) == Some(place))
            }
            PutAnswer::Refused(_) => Ok(true),
        }
    }

    /// The next event is made, by the node or another member.
    fn add_event(&mut self) -> Result<bool, Memory> {
        let next = next_draft(self.alloc, &mut self.dice, &self.plan, self.watched.node())?;
        let Some(draft) = next else {
            return Ok(true);
        };
        if draft.creator != 0 {
            return self.put(&draft);
        }
        self.watched.make(draft.others(), draft.time)?;
        Ok(true)
    }

    /// Publishes a share of a moment. Answers whether the kept order has only grown and is a front of the plain program's, which
    /// the node's certificate shows, and whether the marks are those that were found.
    fn publish(&mut self, number: usize, share: Share) -> Result<bool, Memory> {
        let before = Vec::from_slice(self.alloc, self.watched.node().kept())?;
        let count = count_marked(self.watched.node());
        let Some(published) = self.watched.publish(self.alloc, number, share)? else {
            return Ok(true);
        };
        let node = self.watched.node();
        let whole = whole_of(self.alloc, node)?;
        let proved = is_proved(self.alloc, self.members, self.keys, node, &whole)?;
        Ok(
            proved
                && is_front(before.as_slice(), node.kept())
                && is_front(node.kept(), whole.order.as_slice())
                && count.checked_add(published.marked as usize) == Some(count_marked(node))
                && are_marked(node, published.found.marks.as_slice()),
        )
    }

    /// Holds a moment, where the dice say so.
    fn hold_some(&mut self) -> Result<(), Memory> {
        if self.dice.is_one_in(6) {
            let number = self.dice.below(HELD) as usize;
            self.watched.hold(number)?;
        }
        Ok(())
    }

    /// Publishes a share of one of the moments, where the dice say so.
    fn publish_some(&mut self) -> Result<bool, Memory> {
        if !self.dice.is_one_in(5) {
            return Ok(true);
        }
        let number = self.dice.below(HELD) as usize;
        let of = 1 + self.dice.below(3);
        let k = self.dice.below(of);
        self.publish(number, Share::new(k, of))
    }

    /// One event more, and what is held and published then.
    fn step(&mut self) -> Result<bool, Memory> {
        let added = self.add_event()?;
        self.hold_some()?;
        Ok(self.publish_some()? && added)
    }

    /// All events of the plan.
    fn play_events(&mut self) -> Result<bool, Memory> {
        let mut alike = true;
        for _ in 0..self.plan.events {
            alike = self.step()? && alike;
        }
        Ok(alike)
    }

    /// More events, until some are ordered and there is a fork where the number asks for one.
    fn play_more(&mut self, number: u32) -> Result<bool, Memory> {
        let mut alike = true;
        for _ in 0..MORE {
            if self.is_worth(number) {
                break;
            }
            alike = self.step()? && alike;
        }
        Ok(alike)
    }

    /// All of it, from the node without rows to the end.
    fn play(&mut self, number: u32) -> Result<bool, Memory>
        ensures { IfOk result (λ same. IsTrue same → IsPublished self.new.watched.node) }
    {
        let mut alike = self.is_plain()?;
        alike = self.play_events()? && alike;
        alike = self.play_more(number)? && alike;
        Ok(self.end(number)? && alike)
    }

    /// Publishes all that is left, all at once or share by share, and compares with the plain program; and a table of votes that
    /// is carried from row to row with new ones.
    fn end(&mut self, number: u32) -> Result<bool, Memory>
        ensures { IfOk result (λ same. IsTrue same → IsPublished self.new.watched.node) }
    {
        let mut alike = true;
        if number % 2 == 0 {
            self.watched.settle()?;
        } else {
            alike = self.publish_all(1 + number % 3)?;
        }
        let carried = is_carried(self.alloc, self.watched.node())?;
        Ok(self.is_plain()? && carried && self.is_worth(number) && alike)
    }

    /// Publishes all that the whole graph decides, share by share.
    fn publish_all(&mut self, of: u32) -> Result<bool, Memory> {
        self.watched.hold(0)?;
        let mut alike = true;
        for k in 0..of {
            alike = self.publish(0, Share::new(k, of))? && alike;
        }
        Ok(alike)
    }

    /// Whether all is published, and all that the node tells is what the plain program tells.
    fn is_plain(&self) -> Result<bool, Memory>
        ensures { IfOk result (λ same. IsTrue same → IsPublished self.now.watched.node) }
    {
        let node = self.watched.node();
        let whole = whole_of(self.alloc, node)?;
        let rows = rows_of(self.alloc, node)?;
        let tables = tables_of(self.alloc, node, rows.as_slice())?;
        Ok(is_told_alike(node, &whole, &tables))
    }

    /// Whether rows were ordered, and a member has a fork, where the number asks for one.
    fn is_worth(&self, number: u32) -> bool {
        let node = self.watched.node();
        !node.kept().is_empty() && (node.forkers() > 0 || !asks_for_fork(number))
    }
}

/// Whether all that the node tells is what the plain program tells.
fn is_told_alike(node: &Node<&MacTable>, whole: &PlainWhole, tables: &PlainPrefix<'_>) -> bool
    ensures order { IsTrue result → kept_of node.now ≡ whole.now.order }
    ensures closed { IsTrue result → last_closed_of node.now ≡ whole.now.state.closed }
{
    is_published(node, whole)
        && node.greatest() == whole.state.greatest
        && node.forkers() == whole.state.forkers
        && is_alike(node.graph(), tables)
}

/// Plays the graph of this number, and tells whether all was as it must be.
pub fn play(alloc: Global, number: u32) -> Result<bool, Memory> {
    let mut dice = Dice::new(number);
    let plan = plan_of(number, &mut dice);
    let members = members_of(alloc, plan.members, plan.coin, plan.weighed)?;
    let keys = MacTable::new(alloc, &members)?;
    play_plan(alloc, number, dice, plan, &members, &keys)
}

/// Plays it by its plan, among these members.
fn play_plan(
    alloc: Global,
    number: u32,
    dice: Dice,
    plan: Plan,
    members: &Members,
    keys: &MacTable,
) -> Result<bool, Memory> {
    let watched = Watched::new(alloc, members, keys)?;
    let mut game = Game {
        alloc,
        dice,
        plan,
        members,
        keys,
        watched,
    };
    game.play(number)
}

ghost use Rattle.std.specs.Prelude.{◌≡◌, IfOk, OnOk, length, replicate, true};
ghost use Rattle.order_match.specs.Books.{no_book};
ghost use Rattle.order_match.specs.Laws.{IsWhole};
ghost use Rattle.hg_world.specs.World.{IsMemberOf, new_world};
ghost use Rattle.hg_world.specs.Steps.{after_steps};
ghost use Rattle.order_market.specs.Market.{AreOneBook, action_steps, after_action, after_actions, book_at, events_at, is_action_of};

use crate::action::Action;
use crate::reading::{member_count, read_all};
use hg_life::Members;
use hg_model::{Member, Memory};
use hg_world::World;
use order_match::{Book, nothing_is_lost};
use std::alloc::Global;
use std::marker::Model;

/// The members' nodes, and the book of each.
#[derive(Drop)]
pub struct Market {
    world: World,
    books: Vec<Book>,
}

impl Model for Market {
    ghost use Rattle.hg_world.specs.World.{WorldView};
    ghost use Rattle.order_market.specs.Market.{HasBooks};

    ghost Value = { WorldView };

    ghost view = { λ s. s.world };

    ghost invariant = { λ s. HasBooks s.world s.books.items };
}

impl Market {
    /// A node for each member, without events.
    pub fn new(alloc: Global, members: &Members) -> Result<Market, Memory>
        ensures { IfOk result (λ market. market ≡ new_world members.now) }
    {
        let world = World::new(alloc, members)?;
        let mut books = empty_books(alloc, world.members())?;
        read_all(&mut books, &world)?;
        Ok(Market { world, books })
    }

    /// The market after these actions, one after the other. After `Memory` it is gone.
    pub fn run(self, actions: &[Action]) -> Result<Market, Memory>
        ensures after { IfOk result (λ market. market ≡ after_actions self actions.now) }
        ensures safe { IfOk result AreOneBook }
    {
        let mut market = self;
        for action in actions {
            market = market.with(action)?;
        }
        market.world.is_world();
        Ok(market)
    }

    /// The market after an action: the books have what the nodes order then.
    fn with(self, action: &Action) -> Result<Market, Memory>
        ensures { IfOk result (λ market. market ≡ after_action self action.now) }
    {
        let Market {
            mut world,
            mut books,
        } = self;
        act(&mut world, action)?;
        world.is_world();
        read_all(&mut books, &world)?;
        Ok(Market { world, books })
    }

    /// How many members there are.
    pub fn members(&self) -> Member
        ensures { result ≡ length self.now.sites }
    {
        member_count(&self.world)
    }

    /// The nodes.
    pub fn world(&self) -> &World
        ensures { result.now ≡ self.now }
    {
        &self.world
    }

    /// The book of the order that a member's node keeps.
    pub fn book(&self, member: Member) -> &Book
        requires { IsMemberOf self.now member }
        ensures value { result.now ≡ book_at self.now member }
        ensures whole { IsWhole (events_at self.now member) (book_at self.now member) }
    {
        nothing_is_lost();
        &self.books[member as usize]
    }
}

/// So many books of no events.
fn empty_books(alloc: Global, count: u32) -> Result<Vec<Book>, Memory>
    ensures { IfOk result (λ books. books.items ≡ replicate count no_book) }
{
    let mut books = Vec::new(alloc);
    for made in 0..count {
        books.push(Book::new(alloc))?;
    }
    Ok(books)
}

/// Whether the numbers are those of members.
fn is_action_of(world: &World, action: &Action) -> bool
    ensures { result ≡ is_action_of world.now action.now }
{
    let count = world.members();
    match action {
        Action::Make { member, .. } | Action::Deliver { member, .. } | Action::Settle { member } =>
            { u32::from(*member) < count }
        Action::Sync { taker, peer, .. } => u32::from(*taker) < count && u32::from(*peer) < count,
    }
}

/// Does what is asked for.
fn act(world: &mut World, action: &Action) -> Result<(), Memory>
    ensures { OnOk result (world.new ≡ after_action world.old action.now) }
{
    if is_action_of(world, action) {
        act_of(world, action)?;
    }
    Ok(())
}

/// Does what is asked for, of members.
fn act_of(world: &mut World, action: &Action) -> Result<(), Memory>
    requires { is_action_of world.old action.now ≡ true }
    ensures { OnOk result (world.new ≡ after_steps world.old (action_steps world.old action.now)) }
{
    match action {
        Action::Make {
            member,
            other,
            time,
            payload,
        } => {
            world.make(*member, other.as_slice(), *time, payload.as_slice())?;
        }
        Action::Sync {
            taker,
            peer,
            time,
            payload,
        } => {
            world.sync(*taker, *peer, *time, payload.as_slice())?;
        }
        Action::Deliver { member, bytes } => {
            world.put(*member, bytes.as_slice())?;
        }
        Action::Settle { member } => world.settle(*member)?,
    }
    Ok(())
}

ghost use Rattle.std.specs.Prelude.{◌≡◌, ◌∷◌, ◌++◌, IfOk, OnErr, OnOk, [], cond, not};
ghost use Rattle.std.specs.List.{filter};
ghost use Rattle.order_match.specs.Matching.{insert_order};
ghost use Rattle.order_match.specs.Books.{is_own, no_side, with_left, with_resting, without};

use crate::matching::{place_for, with_quantity};
use crate::orders::Order;
use crate::request::Side;
use hg_model::{Member, Memory};
use std::alloc::Global;
use std::marker::Model;

/// One side of a book.
#[derive(Drop)]
pub struct BookSide {
    resting: Vec<Order>,
    cancelled: Vec<Order>,
}

impl Model for BookSide {
    ghost use Rattle.order_match.specs.Books.{SideView};

    ghost Value = { SideView };

    ghost view = { λ s. record { resting = s.resting.items; cancelled = s.cancelled.items } };
}

impl BookSide {
    /// Without orders.
    pub(crate) fn new(alloc: Global) -> BookSide
        ensures { result ≡ no_side }
    {
        BookSide {
            resting: Vec::new(alloc),
            cancelled: Vec::new(alloc),
        }
    }

    /// The orders that rest, the best price first, and of one price the earlier.
    pub fn resting(&self) -> &[Order]
        ensures { result.now ≡ self.now.resting }
    {
        &self.resting
    }

    /// What was left of the orders that were taken back.
    pub fn cancelled(&self) -> &[Order]
        ensures { result.now ≡ self.now.cancelled }
    {
        &self.cancelled
    }

    /// Puts what is left of an order in its place.
    pub(crate) fn add_left(&mut self, side: Side, order: &Order, left: u32) -> Result<(), Memory>
        ensures ok { OnOk result (self.new ≡ with_left side order.now left self.old) }
        ensures err { OnErr result (self.new ≡ self.old) }
    {
        if left != 0 {
            let rest = with_quantity(order, left);
            insert(&mut self.resting, side, rest)?;
        }
        Ok(())
    }

    /// Other orders rest.
    pub(crate) fn set_resting(&mut self, orders: Vec<Order>)
        ensures { self.new ≡ with_resting self.old orders.items }
    {
        self.resting = orders;
    }

    /// The side without the member's order of this number, what is left of which is taken back.
    pub(crate) fn without(
        &self,
        alloc: Global,
        member: Member,
        number: u64,
    ) -> Result<BookSide, Memory>
        ensures { IfOk result (λ side. side ≡ without member number self.now) }
    {
        let own = owned(alloc, &self.resting, member, number)?;
        let mut cancelled = Vec::from_slice(alloc, &self.cancelled)?;
        cancelled.extend_from_slice(&own)?;
        Ok(BookSide {
            resting: others(alloc, &self.resting, member, number)?,
            cancelled,
        })
    }
}

/// Puts an order in its place.
fn insert(resting: &mut Vec<Order>, side: Side, order: Order) -> Result<(), Memory>
    ensures ok { OnOk result (resting.new.items ≡ insert_order side order resting.old.items) }
    ensures err { OnErr result (resting.new.items ≡ resting.old.items) }
{
    let place = place_for(side, &order, resting);
    resting.insert(place, order)?;
    Ok(())
}

/// Whether it is the member's order of this number.
fn is_own(order: &Order, member: Member, number: u64) -> bool
    ensures { result ≡ is_own member number order.now }
{
    order.member == member && order.number == number
}

/// Puts an order behind the others, where it is wanted.
fn push_if(orders: &mut Vec<Order>, order: &Order, is_wanted: bool) -> Result<(), Memory>
    ensures { OnOk result (orders.new.items ≡ orders.old.items ++ cond is_wanted (order.now ∷ []) []) }
{
    if is_wanted {
        orders.push(*order)?;
    }
    Ok(())
}

/// All orders but the member's of this number.
#[tactic(auto, using(std::proofs::lemmas::List::Elements::filter_more))]
fn others(
    alloc: Global,
    orders: &[Order],
    member: Member,
    number: u64,
) -> Result<Vec<Order>, Memory>
    ensures { IfOk result (λ kept. kept.items ≡ filter (λ o. not (is_own member number o)) orders.now) }
{
    let mut kept = Vec::new(alloc);
    for order in orders {
        push_if(&mut kept, order, !is_own(order, member, number))?;
    }
    Ok(kept)
}

/// The member's orders of this number.
#[tactic(auto, using(std::proofs::lemmas::List::Elements::filter_more))]
fn owned(alloc: Global, orders: &[Order], member: Member, number: u64) -> Result<Vec<Order>, Memory>
    ensures { IfOk result (λ own. own.items ≡ filter (is_own member number) orders.now) }
{
    let mut own = Vec::new(alloc);
    for order in orders {
        push_if(&mut own, order, is_own(order, member, number))?;
    }
    Ok(own)
}

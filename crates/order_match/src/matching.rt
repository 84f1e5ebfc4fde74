ghost use Rattle.std.specs.Prelude.{◌≡◌, ◌≤◌, ◌++◌, ◌∷◌, IfOk, OnOk, drop, length, take};
ghost use Rattle.order_match.specs.Matching.{insert_order, is_better, is_good_enough, meet, met, quantity_met, trade_of, with_quantity};

use crate::orders::{Order, Trade};
use crate::request::Side;
use hg_model::Memory;
use std::alloc::Global;
use std::marker::Model;

/// What comes of an order among those that rest on the other side.
#[derive(Drop)]
pub struct Matched {
    /// What is left of it.
    pub left: u32,
    pub trades: Vec<Trade>,
    /// What still rests of the others.
    pub kept: Vec<Order>,
}

impl Model for Matched {
    ghost use Rattle.order_match.specs.Matching.{Meeting};

    ghost Value = { Meeting };

    ghost view = { λ s. record { left = s.left; trades = s.trades.items; kept = s.kept.items } };
}

/// Whether for an order of this side the price that rests on the other is good enough.
fn is_good_enough(side: Side, price: u32, resting: u32) -> bool
    ensures { result ≡ is_good_enough side price resting }
{
    match side {
        Side::Buy => resting <= price,
        Side::Sell => price <= resting,
    }
}

/// Whether among the orders of this side the first price comes before the second.
fn is_better(side: Side, a: u32, b: u32) -> bool
    ensures { result ≡ is_better side a b }
{
    match side {
        Side::Buy => b < a,
        Side::Sell => a < b,
    }
}

/// The order with another quantity.
pub fn with_quantity(order: &Order, quantity: u32) -> Order
    ensures { result ≡ with_quantity order.now quantity }
{
    Order { quantity, ..*order }
}

/// How much the rest of an incoming order trades with one that rests.
fn quantity_met(side: Side, price: u32, left: u32, resting: &Order) -> u32
    ensures value { result ≡ quantity_met side price left resting.now }
    ensures left { result ≤ left }
    ensures resting { result ≤ resting.now.quantity }
{
    if is_good_enough(side, price, resting.price) {
        left.min(resting.quantity)
    } else {
        0
    }
}

/// The trade of so much between the incoming order and one that rests, at the latter's price.
fn trade_of(side: Side, taker: &Order, resting: &Order, quantity: u32) -> Trade
    ensures { result ≡ trade_of side taker.now resting.now quantity }
{
    let (buyer, seller) = match side {
        Side::Buy => (taker.member, resting.member),
        Side::Sell => (resting.member, taker.member),
    };
    Trade {
        buyer,
        seller,
        price: resting.price,
        quantity,
    }
}

/// The incoming order meets one more that rests.
fn meet(matched: &mut Matched, side: Side, taker: &Order, resting: &Order) -> Result<(), Memory>
    ensures { OnOk result (matched.new ≡ meet side taker.now matched.old resting.now) }
{
    let quantity = quantity_met(side, taker.price, matched.left, resting);
    let rest = resting.quantity - quantity;
    if quantity != 0 {
        matched
            .trades
            .push(trade_of(side, taker, resting, quantity))?;
    }
    if rest != 0 {
        matched.kept.push(with_quantity(resting, rest))?;
    }
    matched.left -= quantity;
    Ok(())
}

/// An order of this side meets those that rest on the other, best first.
pub fn met(alloc: Global, side: Side, taker: &Order, resting: &[Order]) -> Result<Matched, Memory>
    ensures { IfOk result (λ m. m ≡ met side taker.now resting.now) }
{
    let mut matched = Matched {
        left: taker.quantity,
        trades: Vec::new(alloc),
        kept: Vec::new(alloc),
    };
    for order in resting {
        meet(&mut matched, side, taker, order)?;
    }
    Ok(matched)
}

/// The place of an order among those of its side, best first: behind all whose price is as good.
#[tactic(auto, using(crate::proofs::BookLaws::insert_past, crate::proofs::BookLaws::insert_here, crate::proofs::BookLaws::insert_last))]
pub fn place_for(side: Side, order: &Order, resting: &[Order]) -> usize
    ensures within { result ≤ length resting.now }
    ensures place { insert_order side order.now resting.now ≡ take result resting.now ++ order.now ∷ drop result resting.now }
{
    for (place, other) in resting.iter().enumerate() {
        if is_better(side, order.price, other.price) {
            return place;
        }
    }
    resting.len()
}

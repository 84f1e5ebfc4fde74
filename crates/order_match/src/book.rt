ghost use Rattle.std.specs.Prelude.{◌≡◌, ◌≤◌, ◌<◌, ◌+◌, ◌^◌, ◌++◌, OnErr, OnOk};
ghost use Rattle.order_match.specs.Matching.{met};
ghost use Rattle.order_match.specs.Books.{event_of, no_book, with_event, with_left, with_order, with_request, with_resting};

use crate::matching::met;
use crate::orders::{Order, Trade};
use crate::request::{Request, Side, read_request};
use crate::side::BookSide;
use hg_model::{Member, Memory};
use std::alloc::Global;
use std::marker::Model;

/// The book of an order of events.
#[derive(Drop)]
pub struct Book {
    alloc: Global,
    events: u64,
    unread: u64,
    bids: BookSide,
    asks: BookSide,
    trades: Vec<Trade>,
}

impl Model for Book {
    ghost use Rattle.std.specs.Prelude.{◌≤◌};
    ghost use Rattle.order_match.specs.Books.{BookView};

    ghost Value = { BookView };

    ghost view = { λ s. record { events = s.events; unread = s.unread; bids = s.bids; asks = s.asks; trades = s.trades.items } };

    ghost invariant = { λ s. s.unread ≤ s.events };
}

impl Book {
    /// The book of no events.
    pub fn new(alloc: Global) -> Book
        ensures { result ≡ no_book }
    {
        Book {
            alloc,
            events: 0,
            unread: 0,
            bids: BookSide::new(alloc),
            asks: BookSide::new(alloc),
            trades: Vec::new(alloc),
        }
    }

    /// One event more, whatever the payload's bytes are.
    pub fn add(&mut self, member: Member, payload: &[u8]) -> Result<(), Memory>
        requires { self.old.events + 1 < 2 ^ 64 }
        ensures ok { OnOk result (self.new ≡ with_event self.old (event_of member payload.now)) }
        ensures err { OnErr result (self.new ≡ self.old) }
    {
        match read_request(payload) {
            Ok(request) => {
                self.apply(member, &request)?;
                self.events += 1;
            }
            Err(_fault) => {
                self.events += 1;
                self.unread += 1;
            }
        }
        Ok(())
    }

    /// Does what a member asks for.
    fn apply(&mut self, member: Member, request: &Request) -> Result<(), Memory>
        ensures ok { OnOk result (self.new ≡ with_request self.old member request.now) }
        ensures err { OnErr result (self.new ≡ self.old) }
    {
        match request {
            Request::Nothing => Ok(()),
            Request::Place {
                side,
                price,
                quantity,
            } => {
                let order = Order {
                    number: self.events,
                    member,
                    price: *price,
                    quantity: *quantity,
                };
                self.place(*side, &order)
            }
            Request::Cancel { number } => {
                let bids = self.bids.without(self.alloc, member, *number)?;
                let asks = self.asks.without(self.alloc, member, *number)?;
                self.bids = bids;
                self.asks = asks;
                Ok(())
            }
        }
    }

    /// An order meets the other side, and what is left of it rests.
    fn place(&mut self, side: Side, order: &Order) -> Result<(), Memory>
        ensures ok { OnOk result (self.new ≡ with_order self.old side order.now) }
        ensures err { OnErr result (self.new ≡ self.old) }
    {
        let (alloc, trades) = (self.alloc, &mut self.trades);
        match side {
            Side::Buy => place_in(alloc, side, order, &mut self.bids, &mut self.asks, trades),
            Side::Sell => place_in(alloc, side, order, &mut self.asks, &mut self.bids, trades),
        }
    }

    /// How many events the book has.
    pub fn events(&self) -> u64
        ensures { result ≡ self.now.events }
    {
        self.events
    }

    /// How many of them have a payload that is no request.
    pub fn unread(&self) -> u64
        ensures value { result ≡ self.now.unread }
        ensures few { result ≤ self.now.events }
    {
        self.unread
    }

    /// The orders to buy.
    pub fn bids(&self) -> &BookSide
        ensures { result.now ≡ self.now.bids }
    {
        &self.bids
    }

    /// The orders to sell.
    pub fn asks(&self) -> &BookSide
        ensures { result.now ≡ self.now.asks }
    {
        &self.asks
    }

    /// All trades, one after the other.
    pub fn trades(&self) -> &[Trade]
        ensures { result.now ≡ self.now.trades }
    {
        &self.trades
    }
}

/// An order of a side meets the other side, and what is left of it rests on its own.
fn place_in(
    alloc: Global,
    side: Side,
    order: &Order,
    own: &mut BookSide,
    other: &mut BookSide,
    trades: &mut Vec<Trade>,
) -> Result<(), Memory>
    ensures own { OnOk result (own.new ≡ with_left side order.now (met side order.now other.old.resting).left own.old) }
    ensures other { OnOk result (other.new ≡ with_resting other.old (met side order.now other.old.resting).kept) }
    ensures trades { OnOk result (trades.new.items ≡ trades.old.items ++ (met side order.now other.old.resting).trades) }
    ensures err_own { OnErr result (own.new ≡ own.old) }
    ensures err_other { OnErr result (other.new ≡ other.old) }
    ensures err_trades { OnErr result (trades.new.items ≡ trades.old.items) }
{
    let matched = met(alloc, side, order, other.resting())?;
    trades.reserve(matched.trades.len())?;
    own.add_left(side, order, matched.left)?;
    trades.extend_from_slice(&matched.trades).unwrap();
    other.set_resting(matched.kept);
    Ok(())
}

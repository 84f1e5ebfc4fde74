ghost use Rattle.std.specs.Prelude.{◌≡◌, ◌≤◌, ◌<◌, ◌+◌, All, fold, length, vec_capacity, vec_len, IfOk, OnOk};
ghost use Rattle.hg_model.specs.declared.row.Placed.{Placed};
ghost use Rattle.hg_life.specs.Members.{balances_of};
ghost use Rattle.hg_life.specs.Pay.{opened, with_placed};
ghost use Rattle.hg_pay.specs.Applied.{book_with, LeavesAt};
ghost use Rattle.hg_pay.specs.Account.{with_rest};

use crate::book::Book;
use hg_life::{Effect, Members};
use hg_model::{Memory, Placed, Prefix, reserve_all};
use std::alloc::Global;
use std::marker::Model;

/// The book of an order that grows: what came of each of its events so far, and what the members hold then.
#[derive(Drop)]
pub struct Ledger {
    /// What they held at the start.
    opening: Vec<u64>,
    book: Book,
    effects: Vec<Effect>,
}

impl Model for Ledger {
    ghost use Rattle.std.specs.Prelude.{vec_capacity};
    ghost use Rattle.hg_pay.specs.Account.{Account};
    ghost use Rattle.hg_pay.specs.Applied.{book_with};

    ghost Value = { Account };

    ghost view = { λ s. record { opening = s.opening.items; book = book_with s.book s.effects.items; room = vec_capacity s.effects } };
}

impl Ledger {
    /// What the members hold at the start, and no effects.
    pub fn new(alloc: Global, members: &Members) -> Result<Ledger, Memory>
        ensures opening { IfOk result (λ ledger. ledger.opening ≡ balances_of members.now) }
        ensures book { IfOk result (λ ledger. ledger.book ≡ opened (balances_of members.now)) }
    {
        let book = Book::new(alloc, members)?;
        Ok(Ledger {
            opening: Vec::from_slice(alloc, book.balances())?,
            book,
            effects: Vec::new(alloc),
        })
    }

    /// Takes the memory for so many effects in all.
    pub fn reserve(&mut self, events: usize) -> Result<(), Memory>
        ensures room { OnOk result (events ≤ self.new.room) }
        ensures more { self.old.room ≤ self.new.room }
        ensures same { self.new ≡ record self.old { room = self.new.room } }
    {
        reserve_all(&mut self.effects, events)
    }

    /// Does the transfers of the events of an order behind those that it has paid, one after the other. Takes no memory.
    pub fn pay<P: Prefix>(&mut self, p: &P, order: &[Placed])
        requires paid { length self.old.book.effects ≤ length order.now }
        requires room { length order.now ≤ self.old.room }
        requires places { All (λ (x : Placed). x.place < length (P.graph p.now).rows) order.now }
        ensures { self.new ≡ record self.old { book = with_rest (P.graph p.now).rows self.old.book order.now } }
    {
        let paid = self.effects.len();
        pay_each(p, &mut self.book, &mut self.effects, &order[paid..]);
    }

    /// What came of each event, in order.
    pub fn effects(&self) -> &[Effect]
        ensures { result.now ≡ self.now.book.effects }
    {
        &self.effects
    }

    /// What the members hold now.
    pub fn book(&self) -> &Book
        ensures { result.now ≡ self.now.book.balances }
    {
        &self.book
    }
}

/// Does the transfers of the event at a place, and tells what came of its payload.
#[tactic(auto, using(crate::proofs::OrderLaws::leaves_read))]
fn pay_at<P: Prefix>(p: &P, book: &mut Book, place: usize) -> Effect
    requires { place < length (P.graph p.now).rows }
    ensures { LeavesAt (P.graph p.now).rows book.old place book.new result }
{
    let row = p.row(place);
    book.apply_payload(row.creator, row.payload.as_slice())
}

/// Does the transfers of the events of an order, one after the other, and puts what came of each behind the others.
fn pay_each<P: Prefix>(p: &P, book: &mut Book, effects: &mut Vec<Effect>, order: &[Placed])
    requires places { All (λ (x : Placed). x.place < length (P.graph p.now).rows) order.now }
    requires room { vec_len effects.old + length order.now ≤ vec_capacity effects.old }
    ensures book { book_with book.new effects.new.items ≡ fold (with_placed (P.graph p.now).rows) (book_with book.old effects.old.items) order.now }
    ensures capacity { vec_capacity effects.new ≡ vec_capacity effects.old }
{
    for placed in order {
        let effect = pay_at(p, book, placed.place);
        effects.push_reserved(effect);
    }
}

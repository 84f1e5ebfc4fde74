ghost use Rattle.std.specs.Prelude.{◌≡◌, ◌<◌, ◌^◌, get_or, length, IfOk};
ghost use Rattle.std.specs.List.{sum};
ghost use Rattle.hg_life.specs.Members.{balances_of};
ghost use Rattle.hg_life.specs.Pay.{paid};
ghost use Rattle.hg_pay.specs.Applied.{done_bits, Leaves};

use crate::pay::{Pay, read_pay};
use crate::paying::{balance_of, pay_all};
use hg_life::{Effect, Members};
use hg_model::{Member, Memory};
use std::alloc::Global;
use std::marker::Model;

/// What the members hold, in their order. The sum stays below 2^63, so that no balance can grow too large.
#[derive(Drop)]
pub struct Book {
    balances: Vec<u64>,
}

impl Model for Book {
    ghost use Rattle.std.specs.Prelude.{ℕ, ◌<◌, ◌^◌, List};
    ghost use Rattle.std.specs.List.{sum};

    ghost Value = { List ℕ };

    ghost view = { λ s. s.balances.items };

    ghost invariant = { λ s. sum s.balances.items < 2 ^ 63 };
}

impl Book {
    /// What the members hold at the start.
    pub fn new(alloc: Global, members: &Members) -> Result<Book, Memory>
        ensures { IfOk result (λ book. book ≡ balances_of members.now) }
    {
        let entries = members.entries();
        let mut balances = Vec::with_capacity(alloc, entries.len())?;
        for entry in entries {
            balances.push(entry.balance)?;
        }
        Ok(Book { balances })
    }

    /// What the member holds, or 0 of a number that is no member's.
    pub fn balance(&self, member: Member) -> u64
        ensures { result ≡ get_or self.now member 0 }
    {
        balance_of(&self.balances, member)
    }

    /// What the members hold, in their order.
    pub fn balances(&self) -> &[u64]
        ensures { result.now ≡ self.now }
    {
        &self.balances
    }

    /// Does the transfers one after the other, each whole or not at all; the creator pays. Bit `i` of the answer is set
    /// where transfer `i` was done. The sum of the balances stays. Takes no memory.
    pub fn apply(&mut self, creator: Member, pay: &Pay<'_>) -> u64
        ensures done { result ≡ done_bits (paid self.old creator pay.now).done }
        ensures balances { self.new ≡ (paid self.old creator pay.now).balances }
        ensures members { length self.new ≡ length self.old }
        ensures kept { sum self.new ≡ sum self.old }
    {
        pay_all(&mut self.balances, creator, pay)
    }

    /// Does the transfers of a payload, whatever its bytes are, and tells what came of it. The sum of the balances stays.
    /// Takes no memory.
    pub fn apply_payload(&mut self, creator: Member, payload: &[u8]) -> Effect
        ensures book { Leaves self.old creator payload.now self.new result }
        ensures members { length self.new ≡ length self.old }
        ensures kept { sum self.new ≡ sum self.old }
    {
        if payload.is_empty() {
            return Effect::Empty;
        }
        let Some(pay) = read_pay(payload) else {
            return Effect::Unread;
        };
        let done = self.apply(creator, &pay);
        Effect::Paid {
            done: done.count_ones(),
            of: pay.len() as u32,
        }
    }
}

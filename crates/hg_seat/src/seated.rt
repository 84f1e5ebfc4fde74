ghost use Rattle.std.specs.Prelude.{◌≡◌};
ghost use Rattle.hg_board.specs.Seats.{IsOf};

use hg_board::{Seat, Shared};
use hg_gossip::Holder;
use hg_life::{MakeAnswer, Parcel, PutAnswer};
use hg_model::{Memory, Name};
use hg_sign::Signer;
use std::alloc::Global;
use std::sync::Wait;

/// A holder of a shared node, by a seat of it. Its positions are those of the changes that the seat's own calls added.
/// Each call may wait for the turn.
#[derive(Drop)]
pub struct Seated<'a, V: Signer, R: Wait> {
    rt: &'a R,
    shared: &'a Shared<V>,
    seat: &'a mut Seat<V>,
    ghost of: { IsOf shared.now seat.now },
}

impl<'a, V: Signer, R: Wait> Seated<'a, V, R> {
    /// The holder, until the seat is used again. Takes no memory.
    pub fn new(rt: &'a R, shared: &'a Shared<V>, seat: &'a mut Seat<V>) -> Seated<'a, V, R>
        requires { IsOf shared.now seat.old }
        ensures shared { result.shared.now ≡ shared.now }
        ensures seat { result.seat.now ≡ seat.old }
        ensures name { result.seat.ghost_name ≡ seat.entry.ghost_name }
    {
        Seated { rt, shared, seat }
    }
}

impl<'a, V: Signer + Drop, R: Wait> Holder for Seated<'a, V, R> {
    ghost use Rattle.hg_board.specs.Seats.{seen_by};
    ghost use Rattle.hg_board.specs.Calls.{rules_shared};
    ghost use Rattle.hg_seat.specs.Loans.{SeatLoan, seat_loan};

    type Keys = V;

    ghost rules = { rules_shared V.accepts };

    ghost seen = { λ s. seen_by s.shared.now s.seat.now };

    ghost Loan = { SeatLoan V };

    ghost lent = { λ s. seat_loan s.shared.now s.seat.ghost_name s.seat.now.parts };

    fn held(&mut self, alloc: Global) -> Result<Vec<Name>, Memory> {
        self.shared.held(self.rt, alloc, self.seat)
    }

    fn missing(&mut self, alloc: Global, names: &[Name]) -> Result<Parcel, Memory> {
        self.shared.missing(self.rt, alloc, self.seat, names)
    }

    fn tips(&mut self) -> Result<Vec<Name>, Memory> {
        self.shared.tips(self.rt, self.seat)
    }

    fn beyond(&mut self, names: &[Name]) -> Result<Parcel, Memory> {
        self.shared.beyond(self.rt, self.seat, names)
    }

    fn put(&mut self, bytes: &[u8]) -> Result<PutAnswer, Memory> {
        self.shared.put(self.rt, self.seat, bytes)
    }

    fn make(&mut self, others: &[Name], time: u64, payload: &[u8]) -> Result<MakeAnswer, Memory> {
        self.shared.make(self.rt, self.seat, others, time, payload)
    }
}

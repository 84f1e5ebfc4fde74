ghost use Rattle.std.specs.Prelude.{◌≡◌};

use crate::rule::RawSeat;
use hg_sign::Signer;
use std::marker::Model;

/// The token of one caller of a shared node. It knows a prefix of the node's history, the positions of the changes that
/// its own calls added, and its parts of the right to know the whole: the first seat has all.
#[derive(Drop)]
pub struct Seat<V: Signer> {
    pub(crate) raw: RawSeat<V>,
    // As its view has them, so that a caller can ask.
    pub(crate) parts: u32,
}

impl<V: Signer> Model for Seat<V> {
    ghost use Rattle.std.specs.Prelude.{◌≡◌};
    ghost use Rattle.hg_board.specs.Seats.{SeatView, seat_view_of};
    ghost use Rattle.hg_board.specs.Steps.{IsAtRest};

    ghost Value = { SeatView V };

    ghost view = { λ s. seat_view_of s.raw.table_id s.raw.me.0 };

    ghost invariant = { λ s. IsAtRest s.raw.me × (s.raw.me.0.parts ≡ s.parts) };
}

impl<V: Signer> Seat<V> {
    /// How many parts it has. A seat of two or more can be split.
    pub fn parts(&self) -> u32
        ensures { result ≡ self.now.parts }
    {
        self.parts
    }
}

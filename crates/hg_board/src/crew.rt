ghost use Rattle.std.specs.Prelude.{◌<◌, IfOk, OnOk};
ghost use Rattle.hg_board.specs.Seats.{IsOf};
ghost use Rattle.hg_board.specs.Calls.{Stays};
ghost use Rattle.hg_board.specs.Crews.{MarksAll, MarksOf, OnlyMarks};

use crate::seat::Seat;
use crate::shared::Shared;
use hg_model::{Memory, Share};
use hg_sign::Signer;
use std::alloc::Global;
use std::sync::Wait;

/// What works beside the callers that put and make: it publishes what a share of the witnesses decides.
pub trait Crew {
    /// Works with a seat, in turns: in each it may freeze the graph, decide the share's witnesses in it, and publish what
    /// it found. It adds nothing else, also where memory runs out, and answers how many witnesses it marked. Unless
    /// memory ran out, after one turn or more each witness of the share that the graph which the seat had seen decides
    /// is marked so.
    fn work<V: Signer + Drop, R: Wait>(
        &self,
        rt: &R,
        alloc: Global,
        shared: &Shared<V>,
        seat: &mut Seat<V>,
        share: Share,
        turns: u32,
    ) -> Result<u32, Memory>
        requires { IsOf shared.now seat.old }
        ensures stays { Stays V.accepts shared.now seat.old seat.new }
        ensures marks { OnlyMarks share seat.old seat.new }
        ensures counted { IfOk result (MarksOf shared.now share seat.old seat.new) }
        ensures all { OnOk result (0 < turns → MarksAll shared.now share seat.old seat.new) };
}

ghost use Rattle.std.specs.Prelude.{◌≡◌, ◌<◌, All, IfOk, OnErr, OnOk, map};
ghost use Rattle.hg_board.specs.Calls.{after_split, split_off};
ghost use Rattle.hg_crowd.specs.Party.{party_view};
ghost use Rattle.hg_crowd.specs.Workers.{AllAbsorb, HasMore};

use crate::party::Party;
use hg_model::Memory;
use hg_sign::Signer;
use std::alloc::Global;

impl<'a, V: Signer + Drop> Party<'a, V> {
    /// A seat more of each node, split off the one that is there. Without memory none is split.
    pub fn split(&mut self, alloc: Global) -> Result<Party<'a, V>, Memory>
        requires { All (HasMore 1) self.old.seats }
        ensures old { OnOk result (self.new ≡ party_view self.old.places (map after_split self.old.seats)) }
        ensures new { IfOk result (λ other. other ≡ party_view self.old.places (map split_off self.old.seats)) }
        ensures err { OnErr result (self.new ≡ self.old) }
    {
        let shared = self.shared;
        let count = self.seats.len();
        let mut seats = Vec::new(alloc);
        seats.reserve(count)?;
        'nodes: for i in 0..count {
            let seat = shared[i].split(&mut self.seats[i]);
            seats.push_reserved(seat);
        }
        Ok(Party { shared, seats })
    }

    /// Takes other seats of the same nodes into these.
    pub fn absorb(&mut self, other: Party<'a, V>)
        requires { other.places ≡ self.old.places }
        ensures places { self.new.places ≡ self.old.places }
        ensures seats { AllAbsorb V.accepts self.old.places self.old.seats other.entry.seats self.new.seats }
    {
        let shared = self.shared;
        let mut others = other.seats;
        'nodes: while let Some(seat) = others.pop() {
            let i = others.len();
            shared[i].absorb(&mut self.seats[i], seat);
        }
    }
}

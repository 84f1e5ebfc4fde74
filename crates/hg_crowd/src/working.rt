ghost use Rattle.std.specs.Prelude.{◌≡◌, ◌+◌, ◌<◌, ◌≤◌, All, OnOk};
ghost use Rattle.hg_model.specs.Shares.{whole};
ghost use Rattle.hg_crowd.specs.Crowd.{Each};
ghost use Rattle.hg_crowd.specs.Workers.{AllMark, AllMarkUpTo, HasMore, Worked};

use crate::party::Party;
use hg_board::Crew;
use hg_model::{Memory, Share};
use hg_sign::Signer;
use std::alloc::Global;
use std::sync::Wait;
use std::thread::{Threads, join};

impl<'a, V: Signer + Drop> Party<'a, V> {
    /// One worker, who works one turn on every node, in order.
    fn work_each<C: Crew, R: Wait>(
        &mut self,
        rt: &R,
        alloc: Global,
        share: Share,
        crew: &C,
    ) -> Result<(), Memory>
        ensures places { self.new.places ≡ self.old.places }
        ensures worked { Each Worked self.old.seats self.new.seats }
        ensures marked { OnOk result (AllMark self.old.places share self.old.seats self.new.seats) }
    {
        let shared = self.shared;
        'nodes: for i in 0..shared.len() {
            crew.work(rt, alloc, &shared[i], &mut self.seats[i], share, 1)?;
        }
        Ok(())
    }

    /// The same with a party that comes back.
    fn worked_each<C: Crew, R: Wait>(
        mut self,
        rt: &R,
        alloc: Global,
        share: Share,
        crew: &C,
    ) -> (Party<'a, V>, Result<(), Memory>)
        ensures places { result.0.places ≡ self.entry.places }
        ensures worked { Each Worked self.entry.seats result.0.seats }
        ensures marked { OnOk result.1 (AllMark self.entry.places share self.entry.seats result.0.seats) }
    {
        let done = self.work_each(rt, alloc, share, crew);
        (self, done)
    }
}

impl<'a, V: Signer + Drop + Send> Party<'a, V> {
    /// The workers of these shares up to the last, beside each other.
    fn work_up_to<C: Crew + Sync, R: Threads + Wait + Sync>(
        mut self,
        rt: &R,
        alloc: Global,
        last: u32,
        shares: u32,
        crew: &C,
    ) -> (Party<'a, V>, Result<(), Memory>)
        requires parts { All (HasMore last) self.seats }
        requires last { last < shares }
        ensures places { result.0.places ≡ self.entry.places }
        ensures worked { Each Worked self.entry.seats result.0.seats }
        ensures marked { OnOk result.1 (AllMarkUpTo self.entry.places last shares self.entry.seats result.0.seats) }
    {
        let share = Share::new(last, shares);
        if last == 0 {
            return self.worked_each(rt, alloc, share, crew);
        }
        self.are_seats();
        let Ok(other) = self.split(alloc) else {
            return (self, Err(Memory));
        };
        let party = self;
        let before = last - 1;
        let ((mut party, done), (other, other_done)) = join(
            rt,
            move || -> (Party<'_, V>, Result<(), Memory>)
                requires parts { All (HasMore before) party.seats }
                requires last { before < shares }
                ensures places { result.0.places ≡ party.entry.places }
                ensures worked { Each Worked party.entry.seats result.0.seats }
                ensures marked { OnOk result.1 (AllMarkUpTo party.entry.places before shares party.entry.seats result.0.seats) }
            { party.work_up_to(rt, alloc, before, shares, crew) },
            move || -> (Party<'_, V>, Result<(), Memory>)
                ensures places { result.0.places ≡ other.entry.places }
                ensures worked { Each Worked other.entry.seats result.0.seats }
                ensures marked { OnOk result.1 (AllMark other.entry.places share other.entry.seats result.0.seats) }
            { other.worked_each(rt, alloc, share, crew) },
        );
        party.absorb(other);
        (party, done.and(other_done))
    }

    /// So many workers beside each other, each of whom works one turn on every node, in order, for a share of its own. They
    /// add marks alone. All seats that they work with come back, also where memory runs out.
    pub fn work_beside<C: Crew + Sync, R: Threads + Wait + Sync>(
        self,
        rt: &R,
        alloc: Global,
        workers: u32,
        crew: &C,
    ) -> (Party<'a, V>, Result<(), Memory>)
        requires parts { All (HasMore workers) self.seats }
        requires workers { 0 < workers }
        ensures places { result.0.places ≡ self.entry.places }
        ensures worked { Each Worked self.entry.seats result.0.seats }
        ensures marked { OnOk result.1 (AllMark self.entry.places whole self.entry.seats result.0.seats) }
    {
        self.work_up_to(rt, alloc, workers - 1, workers, crew)
    }
}

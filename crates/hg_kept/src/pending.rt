ghost use Rattle.std.specs.Prelude.{◌≡◌, ◌<◌, ◌≤◌, All, [], length, take, filter, OnOk, vec_len, vec_capacity};
ghost use Rattle.std.specs.List.{AllByRecursion};
ghost use Rattle.hg_model.specs.Prefix.{links_of};
ghost use Rattle.hg_order.specs.Famous.{AreFamous, IsBelowAll, all_have};
ghost use Rattle.hg_order.specs.Round.{ArePlacedBy, AreOrderedBy};
ghost use Rattle.hg_kept.specs.Waiting.{HasWaiting, ListsTo, none_received};
ghost use Rattle.hg_kept.specs.Receiving.{AreLeastEnds, Receives, others_of};

use crate::walking::take_below;
use hg_model::{Memory, Placed, Prefix, Sight, is_of_graph, reserve_all};
use hg_order::{RoundMemory, least_counts, order_round_within, received_below};
use std::alloc::Global;
use std::marker::Model;

/// The rows that no closed round has received, and those of them that the round at hand receives. Where ancestors are counted
/// and no member has a fork, each member's rows are received in the order of its line, so that one number a member tells which
/// wait, and a round costs what it receives. From the first round after a fork on they are listed one by one, and each round
/// goes over all that wait.
#[derive(Drop)]
pub struct Pending {
    /// Of each member one more than the place of the last of its rows that was received, or 0: of the rows from `looked` on
    /// those wait that do not stand below.
    ends: [u32; 128],
    /// The places below `looked` of the rows that wait, in order: none before a member has a fork.
    places: Vec<u32>,
    looked: usize,
    fresh: Vec<u32>,
    /// In which the round at hand is ordered.
    memory: RoundMemory,
    /// How many members there are.
    members: usize,
}

impl Model for Pending {
    ghost use Rattle.std.specs.Prelude.{min, vec_capacity};
    ghost use Rattle.hg_kept.specs.Receiving.{Parted};

    ghost Value = { Parted };

    ghost view = { λ s. record { waiting = record { ends = s.ends; places = s.places.items; looked = s.looked }; fresh = s.fresh.items; room = min (vec_capacity s.places) (vec_capacity s.fresh) } };
}

impl Pending {
    /// No rows, of a graph of so many members. Takes no memory.
    pub fn new(alloc: Global, members: u32) -> Pending
        ensures { result.waiting ≡ none_received }
    {
        Pending {
            ends: [0; 128],
            places: Vec::new(alloc),
            looked: 0,
            fresh: Vec::new(alloc),
            memory: RoundMemory::new(alloc),
            members: members as usize,
        }
    }

    /// Takes the memory for so many rows.
    pub fn reserve(&mut self, rows: usize) -> Result<(), Memory>
        ensures room { OnOk result (rows ≤ self.new.room) }
        ensures more { self.old.room ≤ self.new.room }
        ensures same { self.new.waiting ≡ self.old.waiting }
    {
        reserve_all(&mut self.places, rows)?;
        reserve_all(&mut self.fresh, rows)?;
        // For all rows: where many have waited, one round receives them all. What is not written takes no memory.
        self.memory.reserve(rows, self.members)?;
        Ok(())
    }

    /// Parts the rows that the round of these unique famous witnesses receives from those that wait on.
    pub fn receive<P: Prefix>(&mut self, p: &P, famous: &[usize])
        requires famous { AreFamous (P.graph p.now) famous.now }
        requires some { 0 < length famous.now }
        requires waiting { HasWaiting (links_of (P.graph p.now)) self.old.waiting }
        requires room { length (links_of (P.graph p.now)) ≤ self.old.room }
        ensures parted { Receives (P.graph p.now) famous.now self.old.waiting self.new }
        ensures room { self.new.room ≡ self.old.room }
    {
        if self.looked > 0 {
            return self.receive_listed(p, famous);
        }
        match least_counts(p, famous) {
            None => self.receive_listed(p, famous),
            Some(least) => self.receive_below(p, famous, &least),
        }
    }

    /// The same by the ends of the members' lines, where no row is listed yet.
    fn receive_below<P: Prefix>(&mut self, p: &P, famous: &[usize], least: &[u32; 128])
        requires ends { AreLeastEnds (P.graph p.now) famous.now least.now }
        requires none { self.old.waiting.looked ≡ 0 }
        requires room { length (links_of (P.graph p.now)) ≤ self.old.room }
        ensures parted { Receives (P.graph p.now) famous.now self.old.waiting self.new }
        ensures room { self.new.room ≡ self.old.room }
    {
        is_of_graph(p);
        take_below(p, least, &mut self.ends, &mut self.fresh);
    }

    /// The same with the rows that wait listed one by one, whatever forks there are. No row after the first of the witnesses is received.
    fn receive_listed<P: Prefix>(&mut self, p: &P, famous: &[usize])
        requires famous { AreFamous (P.graph p.now) famous.now }
        requires some { 0 < length famous.now }
        requires waiting { HasWaiting (links_of (P.graph p.now)) self.old.waiting }
        requires room { length (links_of (P.graph p.now)) ≤ self.old.room }
        ensures parted { Receives (P.graph p.now) famous.now self.old.waiting self.new }
        ensures room { self.new.room ≡ self.old.room }
    {
        is_of_graph(p);
        let end = self.looked.max(famous[0] + 1);
        list_to(p, &self.ends, &mut self.places, self.looked, end);
        self.looked = end;
        part(p, famous, &mut self.places, &mut self.fresh);
    }

    /// What the last round that received rows has received, by place, in order.
    pub fn fresh(&self) -> &[u32]
        ensures { result.now ≡ self.now.fresh }
    {
        &self.fresh
    }

    /// These rows as the round of these unique famous witnesses places them, in order.
    pub fn order<P: Prefix>(&mut self, p: &P, famous: &[usize], out: &mut [Placed])
        requires famous { AreFamous (P.graph p.now) famous.now }
        requires some { 0 < length famous.now }
        requires received { AllByRecursion (IsBelowAll (P.graph p.now) famous.now) self.old.fresh }
        requires same { length out.old ≡ length self.old.fresh }
        ensures placed { ArePlacedBy (P.graph p.now) famous.now self.old.fresh out.new }
        ensures whole { AreOrderedBy (P.graph p.now) famous.now self.old.fresh out.new }
        ensures same { self.new ≡ self.old }
    {
        order_round_within(p, famous, &self.fresh, &mut self.memory, out);
    }
}

/// Appends the places from `looked` up to below `end` of the rows that do not stand below the end of their creator.
fn list_to<P: Prefix>(p: &P, ends: &[u32; 128], places: &mut Vec<u32>, looked: usize, end: usize)
    requires inside { end ≤ length (links_of (P.graph p.now)) }
    requires looked { looked ≤ end }
    requires few { vec_len places.old ≤ looked }
    requires room { end ≤ vec_capacity places.old }
    ensures listed { ListsTo (links_of (P.graph p.now)) ends.now looked end places.old.items places.new.items }
    ensures room { vec_capacity places.new ≡ vec_capacity places.old }
{
    is_of_graph(p);
    for x in looked..end {
        if ends[p.creator(x) as usize] as usize <= x {
            places.push_reserved(x as u32);
        }
    }
}

/// Moves to `fresh` the rows that these unique famous witnesses all have as ancestor.
fn part<P: Prefix>(p: &P, famous: &[usize], places: &mut Vec<u32>, fresh: &mut Vec<u32>)
    requires famous { AreFamous (P.graph p.now) famous.now }
    requires some { 0 < length famous.now }
    requires places { All (λ x. x < length (links_of (P.graph p.now))) places.old.items }
    requires room { vec_len places.old ≤ vec_capacity fresh.old }
    ensures fresh { fresh.new.items ≡ filter (all_have (links_of (P.graph p.now)) famous.now) places.old.items }
    ensures places { places.new.items ≡ others_of (P.graph p.now) famous.now places.old.items }
    ensures places_room { vec_capacity places.new ≡ vec_capacity places.old }
    ensures fresh_room { vec_capacity fresh.new ≡ vec_capacity fresh.old }
{
    fresh.clear();
    let kept = move_received(p, famous, places, fresh);
    places.truncate(kept);
}

/// Appends to `fresh` the rows that these all have as ancestor, and moves the others to the front; tells how many.
fn move_received<P: Prefix>(
    p: &P,
    famous: &[usize],
    places: &mut [u32],
    fresh: &mut Vec<u32>,
) -> usize
    requires famous { AreFamous (P.graph p.now) famous.now }
    requires some { 0 < length famous.now }
    requires places { All (λ x. x < length (links_of (P.graph p.now))) places.old }
    requires none { fresh.old.items ≡ [] }
    requires room { length places.old ≤ vec_capacity fresh.old }
    ensures fresh { fresh.new.items ≡ filter (all_have (links_of (P.graph p.now)) famous.now) places.old }
    ensures others { take result places.new ≡ others_of (P.graph p.now) famous.now places.old }
    ensures room { vec_capacity fresh.new ≡ vec_capacity fresh.old }
{
    let least = least_counts(p, famous);
    let mut kept = 0;
    for i in 0..places.len() {
        let x = places[i];
        if received_below(p, famous, &least, x as usize) {
            fresh.push_reserved(x);
        } else {
            places[kept] = x;
            kept += 1;
        }
    }
    kept
}

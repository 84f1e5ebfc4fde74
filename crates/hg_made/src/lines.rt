ghost use Rattle.std.specs.Prelude.{◌≡◌, ◌≤◌, ◌<◌, ◌+◌, ◌-◌, IfOk, OnOk};
ghost use Rattle.hg_made.specs.Draws.{state_after};
ghost use Rattle.hg_made.specs.Made.{lines_at, made_gossip, made_sync, peer_of, state_behind};

use crate::draws::Draws;
use hg_life::Transfer;
use hg_model::{Bytes, Items, Member, Memory};
use hg_pay::write_pay;
use hg_script::{Action, Gossip, Line, LineSource, Part};
use std::alloc::Global;
use std::marker::Model;

/// Another member than the taker, for a number below their count less one.
pub fn peer_of(taker: u64, b: u64) -> u64
    requires { b < 128 }
    ensures { result ≡ peer_of taker b }
{
    if b < taker { b } else { b + 1 }
}

/// A sync between two members, with a transfer to a third.
fn made_sync(alloc: Global, draws: &mut Draws, members: u64, time: u64) -> Result<Gossip, Memory>
    requires some { 2 ≤ members }
    requires few { members ≤ 128 }
    ensures gossip { IfOk result (λ gossip. gossip ≡ made_sync members draws.old time) }
    ensures state { OnOk result (draws.new ≡ state_after draws.old 4) }
{
    let taker = draws.below(members);
    let peer = peer_of(taker, draws.below(members - 1));
    let amount = draws.below(20);
    let receiver = draws.below(members) as Member;
    let payload = write_pay(alloc, &[Transfer { receiver, amount }])?;
    Ok(Gossip::Sync {
        taker: taker as Member,
        peer: peer as Member,
        time,
        payload,
    })
}

/// What line `j` does, the first being 0.
fn made_gossip(alloc: Global, draws: &mut Draws, members: u32, j: u32) -> Result<Gossip, Memory>
    requires some { 2 ≤ members }
    requires few { members ≤ 128 }
    ensures gossip { IfOk result (λ gossip. gossip ≡ made_gossip members draws.old j) }
    ensures state { OnOk result (draws.new ≡ state_behind members draws.old j) }
{
    let time = u64::from(j) + 1;
    if j < members {
        Ok(Gossip::Create {
            member: j as Member,
            time,
            payload: Items::new(alloc),
        })
    } else {
        made_sync(alloc, draws, u64::from(members), time)
    }
}

/// The lines for so many members, made one after the other.
#[derive(Drop)]
pub struct MadeLines {
    alloc: Global,
    draws: Draws,
    members: u32,
    /// How many were made so far.
    made: u32,
    /// How many there are.
    count: u32,
}

impl Model for MadeLines {
    ghost use Rattle.std.specs.Prelude.{◌-◌, ◌≤◌};
    ghost use Rattle.hg_made.specs.Made.{MadeView, lines_at};

    ghost Value = { MadeView };

    ghost view = { λ s. lines_at s.members s.draws s.made (s.count - s.made) };

    ghost invariant = { λ s. (2 ≤ s.members) × (s.members ≤ 128) × (s.made ≤ s.count) };
}

impl MadeLines {
    /// So many lines, drawn from a seed.
    pub(crate) fn new(alloc: Global, seed: u64, members: u32, count: u32) -> MadeLines
        requires some { 2 ≤ members }
        requires few { members ≤ 128 }
        ensures { result ≡ lines_at members seed 0 count }
    {
        MadeLines {
            alloc,
            draws: Draws::new(seed),
            members,
            made: 0,
            count,
        }
    }
}

impl LineSource for MadeLines {
    ghost use Rattle.hg_made.specs.Made.{lines_to_come};

    ghost rest = { λ v. lines_to_come v };

    fn left(&self) -> usize {
        (self.count - self.made) as usize
    }

    fn next_line(&mut self) -> Result<Line, Memory> {
        let gossip = made_gossip(self.alloc, &mut self.draws, self.members, self.made)?;
        self.made += 1;
        Ok(Line {
            number: u64::from(self.made),
            action: Action::Part(Part::Gossip(gossip)),
        })
    }
}

ghost use Rattle.std.specs.Prelude.{◌≡◌, ◌≤◌, [], length, vec_len, IfOk, OnErr, OnOk};
ghost use Rattle.std.specs.Arc.{arc_value};
ghost use Rattle.hg_votes.specs.Counting.{HoldsVoters};
ghost use Rattle.hg_votes.specs.Shared.{EntersOrLeaves, HasEntered, voters_in};

use crate::holding::Holding;
use crate::table::{NO_BALLOT, enter_or_leave};
use crate::voters::Voters;
use hg_model::{Ballot, Memory, Prefix};
use std::alloc::Global;
use std::marker::Model;
use std::mem;
use std::sync::Arc;

/// Voters that tables share until one of them enters rows, which then goes on with a copy unless it has them alone.
#[derive(Drop)]
pub struct SharedVoters {
    holding: Holding,
}

impl Model for SharedVoters {
    ghost use Rattle.hg_votes.specs.Counting.{Entered};
    ghost use Rattle.hg_votes.specs.Shared.{voters_in};

    ghost Value = { Entered };

    ghost view = { λ s. voters_in s.holding };
}

impl SharedVoters {
    /// Of no rows. Takes no memory.
    pub fn new(alloc: Global) -> SharedVoters
        ensures numbers { result.numbers ≡ [] }
        ensures sets { result.sets ≡ [] }
    {
        SharedVoters {
            holding: Holding::Own(Voters::new(alloc)),
        }
    }

    /// The voters.
    pub fn as_voters(&self) -> &Voters
        ensures { result.now ≡ self.now }
    {
        voters_of(&self.holding)
    }

    /// A value that shares them.
    pub fn share(&mut self, alloc: Global) -> Result<SharedVoters, Memory>
        ensures same { self.new ≡ self.old }
        ensures shared { IfOk result (λ other. other ≡ self.old) }
    {
        seal(&mut self.holding, alloc)?;
        Ok(SharedVoters {
            holding: shared_of(&self.holding, alloc)?,
        })
    }

    /// Enters the rows that are not entered yet, and takes the memory of a ballot for each witness. An error leaves both.
    pub fn enter<P: Prefix>(
        &mut self,
        alloc: Global,
        ballots: &mut Vec<Ballot>,
        p: &P,
    ) -> Result<(), Memory>
        requires few { length self.old.numbers ≤ length (P.graph p.now).rows }
        requires before { HoldsVoters (P.graph p.now) (length self.old.numbers) self.old }
        ensures entered { OnOk result (HasEntered (P.graph p.now) self.new ballots.new) }
        ensures same_voters { OnErr result (self.new ≡ self.old) }
        ensures same_ballots { OnErr result (ballots.new.items ≡ ballots.old.items) }
    {
        if enter_in(&mut self.holding, ballots, p)? {
            return Ok(());
        }
        let voters = self.as_voters();
        if voters.rows() == p.rows() {
            ballots.resize(voters.witnesses(), NO_BALLOT)?;
            return Ok(());
        }
        let mut copy = voters.copied(alloc)?;
        enter_or_leave(&mut copy, ballots, p)?;
        self.holding = Holding::Own(copy);
        Ok(())
    }
}

/// The voters that are held.
fn voters_of(holding: &Holding) -> &Voters
    ensures { result.now ≡ voters_in holding.now }
{
    match holding {
        Holding::Own(voters) => voters,
        Holding::Shared(voters) => voters,
    }
}

/// Makes them such as may be shared.
fn seal(holding: &mut Holding, alloc: Global) -> Result<(), Memory>
    ensures { voters_in holding.new ≡ voters_in holding.old }
{
    if let Holding::Own(voters) = holding {
        let own = mem::replace(voters, Voters::new(alloc));
        match Arc::new(alloc, own) {
            Ok(shared) => *holding = Holding::Shared(shared),
            Err(refused) => {
                *holding = Holding::Own(refused.value);
                return Err(Memory);
            }
        }
    }
    Ok(())
}

/// The same voters once more: shared, or a copy where they cannot be.
fn shared_of(holding: &Holding, alloc: Global) -> Result<Holding, Memory>
    ensures { IfOk result (λ other. voters_in other ≡ voters_in holding.now) }
{
    match holding {
        Holding::Shared(voters) => Ok(Holding::Shared(Arc::try_clone(voters)?)),
        Holding::Own(voters) => Ok(Holding::Own(voters.copied(alloc)?)),
    }
}

/// Enters the rows and tells so, or leaves the voters where others share them.
fn enter_in<P: Prefix>(
    holding: &mut Holding,
    ballots: &mut Vec<Ballot>,
    p: &P,
) -> Result<bool, Memory>
    requires few { length (voters_in holding.old).numbers ≤ length (P.graph p.now).rows }
    requires before { HoldsVoters (P.graph p.now) (length (voters_in holding.old).numbers) (voters_in holding.old) }
    ensures { EntersOrLeaves (P.graph p.now) (voters_in holding.old) ballots.old (voters_in holding.new) ballots.new result }
{
    match holding {
        Holding::Own(voters) => enter_own(voters, ballots, p),
        Holding::Shared(voters) => enter_alone(voters, ballots, p),
    }
}

/// Enters the rows.
fn enter_own<P: Prefix>(
    voters: &mut Voters,
    ballots: &mut Vec<Ballot>,
    p: &P,
) -> Result<bool, Memory>
    requires few { length voters.old.numbers ≤ length (P.graph p.now).rows }
    requires before { HoldsVoters (P.graph p.now) (length voters.old.numbers) voters.old }
    ensures { EntersOrLeaves (P.graph p.now) voters.old ballots.old voters.new ballots.new result }
{
    enter_or_leave(voters, ballots, p)?;
    Ok(true)
}

/// The same where nobody shares these voters.
fn enter_alone<P: Prefix>(
    shared: &mut Arc<Voters>,
    ballots: &mut Vec<Ballot>,
    p: &P,
) -> Result<bool, Memory>
    requires few { length (arc_value shared.old).numbers ≤ length (P.graph p.now).rows }
    requires before { HoldsVoters (P.graph p.now) (length (arc_value shared.old).numbers) (arc_value shared.old) }
    ensures { EntersOrLeaves (P.graph p.now) (arc_value shared.old) ballots.old (arc_value shared.new) ballots.new result }
{
    match Arc::get_mut(shared) {
        Some(voters) => enter_own(voters, ballots, p),
        None => Ok(false),
    }
}

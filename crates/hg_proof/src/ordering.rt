ghost use Rattle.std.specs.Prelude.{◌≡◌, IfOk};
ghost use Rattle.hg_model.specs.GraphWords.{IsLawfulGraph};
ghost use Rattle.hg_proof.specs.Answers.{order_in};

use hg_fame::elect_share;
use hg_kept::Kept;
use hg_model::{Memory, Placed, Prefix, Share};
use hg_votes::VoteTable;
use std::alloc::Global;

/// The whole order of a graph: that of all rounds which its own fame closes.
pub(crate) fn order_in<P: Prefix>(alloc: Global, p: &P) -> Result<Vec<Placed>, Memory>
    requires { IsLawfulGraph (P.graph p.now) }
    ensures { IfOk result (λ order. order.items ≡ order_in (P.graph p.now)) }
{
    let mut votes = VoteTable::new(alloc, p)?;
    let found = elect_share(alloc, p, &mut votes, Share::new(0, 1))?;
    let mut kept = Kept::behind(alloc, p)?;
    kept.publish(p, &found);
    Ok(Vec::from_slice(alloc, kept.order())?)
}

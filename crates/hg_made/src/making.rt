ghost use Rattle.std.specs.Prelude.{◌≡◌, ◌≤◌, ℕ, All, IfOk};
ghost use Rattle.hg_script.specs.Lawful.{IsLine};
ghost use Rattle.hg_made.specs.Made.{generate, lines_to_come};

use crate::lines::MadeLines;
use crate::members::made_members;
use hg_life::Members;
use hg_model::Memory;
use std::alloc::Global;

/// So many members, and so many lines for them: first each member's first event, then syncs with a transfer. Of a sync
/// the taker, the peer, the amount, below 20, and the receiver are drawn from the seed, in this order. A secret is the
/// seed and the member's number. The rest is fixed: the names m0, m1 and so on, a node and a balance of 1000 for each
/// member, the coin period 10, first events without a payload, and as times the lines' numbers, from 1.
pub fn generate(
    alloc: Global,
    seed: u64,
    members: u32,
    lines: u32,
) -> Result<(Members, MadeLines), Memory>
    requires some { 2 ≤ members }
    requires few { members ≤ 128 }
    ensures made { IfOk result (λ made. (made.0, lines_to_come made.1) ≡ generate seed members lines) }
    ensures lawful { (workers : ℕ) → IfOk result (λ made. All (IsLine made.0 workers) (lines_to_come made.1)) }
{
    let list = made_members(alloc, seed, members)?;
    let lines = MadeLines::new(alloc, seed, members, lines);
    Ok((list, lines))
}

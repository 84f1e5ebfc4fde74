ghost use Rattle.std.specs.Prelude.{◌<◌, All, IfOk, length};
ghost use Rattle.hg_script.specs.Lawful.{IsLine};
ghost use Rattle.hg_certify.specs.Proving.{IsProofOf};

use hg_life::Members;
use hg_model::{Member, Memory};
use hg_play::play_world;
use hg_proof::{certificate, certificates_are_judged};
use hg_script::Line;
use std::alloc::Global;

/// The certificate of the order of a member's node, after the play of these lines.
pub fn prove_order(
    alloc: Global,
    members: &Members,
    lines: &[Line],
    own: Member,
) -> Result<Vec<u8>, Memory>
    requires own { own < length members.now.entries }
    requires lines { All (IsLine members.now 0) lines.now }
    ensures { IfOk result (λ bytes. IsProofOf members.now lines.now own bytes.items) }
{
    certificates_are_judged();
    let world = play_world(alloc, members, lines)?;
    world.is_world();
    let bytes = certificate(alloc, world.node(own))?;
    Ok(bytes)
}

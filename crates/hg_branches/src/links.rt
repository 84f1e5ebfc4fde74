ghost use Rattle.std.specs.Prelude.{◌≡◌, ◌<◌, length};
ghost use Rattle.hg_model.specs.Stakes.{Stakes, member_count};
ghost use Rattle.hg_model.specs.Links.{creator, self_parent};
ghost use Rattle.hg_model.specs.Graph.{IsShaped};
ghost use Rattle.hg_model.specs.Shape.{place_list};

use hg_ancestry::PlacedLink;
use hg_blocks::Blocks;
use hg_model::Member;

/// The creator of row `x`.
#[tactic(auto, using(hg_model::proofs::LinkLaws::link_reads))]
pub fn creator_at(links: &Blocks<PlacedLink>, x: usize) -> Member
    requires place { x < length links.now.items }
    ensures value { result ≡ creator links.now.items x }
    ensures member { (n : Stakes) → IsShaped n links.now.items → result < member_count n }
{
    let link = &links[x];
    link.creator()
}

/// The place of the self-parent of row `x`, if it has one.
#[tactic(auto, using(hg_model::proofs::LinkLaws::link_reads), unfolding(hg_model::specs::Links::self_parent))]
pub fn self_parent_at(links: &Blocks<PlacedLink>, x: usize) -> Option<usize>
    requires { x < length links.now.items }
    ensures { place_list result ≡ self_parent links.now.items x }
{
    let link = &links[x];
    link.self_parent()
}

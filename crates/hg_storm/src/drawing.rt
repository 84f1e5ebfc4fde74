// Whom a member sends to.
ghost use Rattle.std.specs.Prelude.{◌≡◌, ◌<◌, ◌≤◌, IfNone, IfSome, length};
ghost use Rattle.hg_made.specs.Draws.{next_state};
ghost use Rattle.hg_storm.specs.Drawing.{peer_drawn, place_in};

use hg_made::{Draws, peer_of};
use hg_model::Member;

/// The place of a member among those that have nodes, if it is one of them.
pub(crate) fn place_in(circle: &[Member], me: Member) -> Option<usize>
    ensures place { result ≡ place_in circle.now me }
    ensures inside { IfSome result (λ place. place < length circle.now) }
{
    circle.iter().position(|member| *member == me)
}

/// Whom the member at a place among those that have nodes draws next, itself left out; `None` where there is no other.
pub(crate) fn draw_peer(circle: &[Member], place: usize, draws: &mut Draws) -> Option<Member>
    requires place { place < length circle.now }
    requires few { length circle.now ≤ 128 }
    ensures some { IfSome result (λ peer. peer ≡ peer_drawn circle.now place draws.new) }
    ensures others { IfSome result (λ peer. 1 < length circle.now) }
    ensures state { 1 < length circle.now → draws.new ≡ next_state draws.old }
    ensures none { IfNone result (length circle.now ≤ 1) }
{
    if circle.len() < 2 {
        return None;
    }
    let b = draws.below(circle.len() as u64 - 1);
    let peer = peer_of(place as u64, b) as usize;
    Some(circle[peer])
}

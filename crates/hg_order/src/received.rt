ghost use Rattle.std.specs.Prelude.{◌≡◌, ◌<◌, All, length};
ghost use Rattle.hg_model.specs.Prefix.{links_of};
ghost use Rattle.hg_order.specs.Counted.{IfShared};
ghost use Rattle.hg_order.specs.Famous.{AreFamous, all_have, SaysReceived};

use hg_model::{Prefix, Sight, is_of_graph};

/// Whether all unique famous witnesses of a round have row `x` as ancestor: where the round is closed, whether it can
/// receive the row.
pub fn received_in<P: Prefix>(p: &P, famous: &[usize], x: usize) -> bool
    requires famous { AreFamous (P.graph p.now) famous.now }
    requires some { 0 < length famous.now }
    requires place { x < length (links_of (P.graph p.now)) }
    ensures all { result ≡ all_have (links_of (P.graph p.now)) famous.now x }
    ensures receives { SaysReceived (P.graph p.now) famous.now x result }
{
    is_of_graph(p);
    have_all(p, famous, x)
}

/// Whether all unique famous witnesses of a round have row `x` as ancestor: by one comparison, if there are their least
/// counts.
pub fn received_below<P: Prefix>(
    p: &P,
    famous: &[usize],
    least: &Option<[u32; 128]>,
    x: usize,
) -> bool
    requires famous { AreFamous (P.graph p.now) famous.now }
    requires some { 0 < length famous.now }
    requires least { IfShared (P.graph p.now) famous.now least.now }
    requires place { x < length (links_of (P.graph p.now)) }
    ensures { result ≡ all_have (links_of (P.graph p.now)) famous.now x }
{
    is_of_graph(p);
    match least {
        None => received_in(p, famous, x),
        Some(least) => x < least[p.creator(x) as usize] as usize,
    }
}

fn have_all<S: Sight>(sight: &S, places: &[usize], x: usize) -> bool
    requires places { All (λ w. w < length (S.shape sight.now).links) places.now }
    requires place { x < length (S.shape sight.now).links }
    ensures { result ≡ all_have (S.shape sight.now).links places.now x }
{
    places.iter().all(|w| sight.ancestor(*w, x))
}

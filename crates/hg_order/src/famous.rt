ghost use Rattle.std.specs.Prelude.{◌≡◌, ◌<◌, ◌≤◌, All, length, take, drop};
ghost use Rattle.std.specs.List.{list_any};
ghost use Rattle.hg_model.specs.Stakes.{member_count};
ghost use Rattle.hg_model.specs.Fame.{is_yes, mark_at};
ghost use Rattle.hg_model.specs.GraphWords.{famous_of};
ghost use Rattle.hg_order.specs.Famous.{AreFamous, count_lone, is_lone, is_rival_to, lone_of};

use hg_model::{Prefix, Sight, is_of_graph};

/// The unique famous witnesses of round `r` by the marks: their places, in order, to the front of `out`, which has
/// room for one of each member. It answers how many there are.
pub fn unique_famous<P: Prefix>(p: &P, marks: &[Option<bool>], r: u32, out: &mut [usize]) -> usize
    requires { member_count (P.graph p.now).members ≤ length out.old }
    ensures count { result ≡ length (famous_of (P.graph p.now) marks.now r) }
    ensures front { take result out.new ≡ famous_of (P.graph p.now) marks.now r }
    ensures rest { drop result out.new ≡ drop result out.old }
    ensures famous { AreFamous (P.graph p.now) (take result out.new) }
    ensures fits { result ≤ member_count (P.graph p.now).members }
{
    is_of_graph(p);
    keep_lone(p, marks, p.witnesses(r), out)
}

/// Of these witnesses those that are famous, and whose creator has no other famous one among them.
#[tactic(auto, using(crate::proofs::KeepLaws::keep_steps))]
fn keep_lone<S: Sight>(
    sight: &S,
    marks: &[Option<bool>],
    witnesses: &[usize],
    out: &mut [usize],
) -> usize
    requires places { All (λ y. y < length (S.shape sight.now).links) witnesses.now }
    requires fits { count_lone (S.shape sight.now).links marks.now witnesses.now ≤ length out.old }
    ensures count { result ≡ count_lone (S.shape sight.now).links marks.now witnesses.now }
    ensures front { take result out.new ≡ lone_of (S.shape sight.now).links marks.now witnesses.now }
    ensures rest { drop result out.new ≡ drop result out.old }
{
    let mut count = 0;
    for y in witnesses {
        if is_lone(sight, marks, witnesses, *y) {
            out[count] = *y;
            count += 1;
        }
    }
    count
}

fn is_lone<S: Sight>(sight: &S, marks: &[Option<bool>], witnesses: &[usize], y: usize) -> bool
    requires places { All (λ y. y < length (S.shape sight.now).links) witnesses.now }
    requires place { y < length (S.shape sight.now).links }
    ensures { result ≡ is_lone (S.shape sight.now).links marks.now witnesses.now y }
{
    is_marked_yes(marks, y) && !has_rival(sight, marks, witnesses, y)
}

fn has_rival<S: Sight>(sight: &S, marks: &[Option<bool>], witnesses: &[usize], y: usize) -> bool
    requires places { All (λ y. y < length (S.shape sight.now).links) witnesses.now }
    requires place { y < length (S.shape sight.now).links }
    ensures { result ≡ list_any (is_rival_to (S.shape sight.now).links marks.now y) witnesses.now }
{
    witnesses.iter().any(|z| is_rival(sight, marks, y, *z))
}

fn is_marked_yes(marks: &[Option<bool>], y: usize) -> bool
    ensures { result ≡ is_yes (mark_at marks.now y) }
{
    matches!(marks.get(y), Some(Some(true)))
}

fn is_rival<S: Sight>(sight: &S, marks: &[Option<bool>], y: usize, z: usize) -> bool
    requires place { y < length (S.shape sight.now).links }
    requires rival { z < length (S.shape sight.now).links }
    ensures { result ≡ is_rival_to (S.shape sight.now).links marks.now y z }
{
    is_marked_yes(marks, z) && sight.creator(z) == sight.creator(y) && z != y
}

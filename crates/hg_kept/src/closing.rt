ghost use Rattle.std.specs.Prelude.{◌≡◌, ◌<◌, ◌≤◌, ◌+◌, ◌^◌, true, All, length, is_some, take, vec_len, vec_capacity};
ghost use Rattle.std.specs.List.{AllByRecursion, list_all};
ghost use Rattle.hg_model.specs.Fame.{mark_at};
ghost use Rattle.hg_model.specs.Orders.{IsPrefix};
ghost use Rattle.hg_model.specs.GraphWords.{famous_of, is_closed_in};
ghost use Rattle.hg_order.specs.Famous.{AreFamous, IsBelowAll};
ghost use Rattle.hg_kept.specs.Published.{IsReached, Keeps, KeepsUpTo};
ghost use Rattle.hg_kept.specs.Receiving.{published_as, AppendsRound};

use crate::pending::Pending;
use hg_model::{Placed, Prefix, is_of_graph};
use hg_order::unique_famous;

/// Whether all of these witnesses have a mark.
fn are_marked(marks: &[Option<bool>], witnesses: &[usize]) -> bool
    requires { All (λ w. w < length marks.now) witnesses.now }
    ensures { result ≡ list_all (λ w. is_some (mark_at marks.now w)) witnesses.now }
{
    witnesses.iter().all(|w| marks[*w].is_some())
}

/// Whether the round after `closed` is closed, where those up to `closed` are.
fn is_next_closed<P: Prefix>(p: &P, marks: &[Option<bool>], closed: u32) -> bool
    requires marked { length marks.now ≡ length (P.graph p.now).rows }
    requires reached { IsReached (P.graph p.now) marks.now closed }
    requires short { closed + 1 < 2 ^ 32 }
    ensures { result ≡ is_closed_in (P.graph p.now) marks.now (closed + 1) }
{
    is_of_graph(p);
    let witnesses = p.witnesses(closed + 1);
    !witnesses.is_empty() && are_marked(marks, witnesses)
}

/// So many more places in an order, to be written.
fn make_places(order: &mut Vec<Placed>, count: usize)
    requires room { vec_len order.old + count ≤ vec_capacity order.old }
    ensures len { vec_len order.new ≡ vec_len order.old + count }
    ensures same { take (vec_len order.old) order.new.items ≡ order.old.items }
    ensures room { vec_capacity order.new ≡ vec_capacity order.old }
{
    for _ in 0..count {
        order.push_reserved(Placed {
            place: 0,
            received: 0,
            time: 0,
        });
    }
}

/// Appends the rows that a round receives, in order.
fn append_round<P: Prefix>(p: &P, famous: &[usize], pending: &mut Pending, order: &mut Vec<Placed>)
    requires famous { AreFamous (P.graph p.now) famous.now }
    requires some { 0 < length famous.now }
    requires received { AllByRecursion (IsBelowAll (P.graph p.now) famous.now) pending.old.fresh }
    requires room { vec_len order.old + length pending.old.fresh ≤ vec_capacity order.old }
    ensures order { AppendsRound (P.graph p.now) famous.now pending.old.fresh order.old.items order.new.items }
    ensures room { vec_capacity order.new ≡ vec_capacity order.old }
    ensures same { pending.new ≡ pending.old }
{
    let before = order.len();
    make_places(order, pending.fresh().len());
    pending.order(p, famous, &mut order[before..]);
}

/// The unique famous witnesses of round `r`, to the front of `places`; tells how many.
fn find_famous<P: Prefix>(p: &P, marks: &[Option<bool>], r: u32, places: &mut [usize]) -> usize
    requires marked { length marks.now ≡ length (P.graph p.now).rows }
    requires wide { length places.old ≡ 128 }
    ensures famous { take result places.new ≡ famous_of (P.graph p.now) marks.now r }
    ensures few { result ≤ 128 }
{
    is_of_graph(p);
    unique_famous(p, marks, r, &mut places[..p.members() as usize])
}

/// Orders what the round after `closed` receives, which is closed too, by its unique famous witnesses.
fn receive_by<P: Prefix>(
    p: &P,
    marks: &[Option<bool>],
    closed: u32,
    famous: &[usize],
    pending: &mut Pending,
    order: &mut Vec<Placed>,
)
    requires keeps { KeepsUpTo (P.graph p.now) (published_as marks.now closed order.old.items pending.old) }
    requires next { is_closed_in (P.graph p.now) marks.now (closed + 1) ≡ true }
    requires famous { famous.now ≡ famous_of (P.graph p.now) marks.now (closed + 1) }
    requires pending_room { length (P.graph p.now).rows ≤ pending.old.room }
    requires order_room { length (P.graph p.now).rows ≤ vec_capacity order.old }
    ensures keeps { KeepsUpTo (P.graph p.now) (published_as marks.now (closed + 1) order.new.items pending.new) }
    ensures pending_room { pending.new.room ≡ pending.old.room }
    ensures order_room { vec_capacity order.new ≡ vec_capacity order.old }
{
    if famous.is_empty() {
        return;
    }
    pending.receive(p, famous);
    append_round(p, famous, pending, order);
}

/// Orders what the round after `closed` receives, which is closed too.
fn receive_round<P: Prefix>(
    p: &P,
    marks: &[Option<bool>],
    closed: u32,
    pending: &mut Pending,
    order: &mut Vec<Placed>,
)
    requires keeps { KeepsUpTo (P.graph p.now) (published_as marks.now closed order.old.items pending.old) }
    requires next { is_closed_in (P.graph p.now) marks.now (closed + 1) ≡ true }
    requires short { closed + 1 < 2 ^ 32 }
    requires pending_room { length (P.graph p.now).rows ≤ pending.old.room }
    requires order_room { length (P.graph p.now).rows ≤ vec_capacity order.old }
    ensures keeps { KeepsUpTo (P.graph p.now) (published_as marks.now (closed + 1) order.new.items pending.new) }
    ensures pending_room { pending.new.room ≡ pending.old.room }
    ensures order_room { vec_capacity order.new ≡ vec_capacity order.old }
{
    let mut places = [0; 128];
    let count = find_famous(p, marks, closed + 1, &mut places);
    receive_by(p, marks, closed, &places[..count], pending, order);
}

/// Orders what the rounds after `closed` receive that are closed too, and tells the last of them.
pub fn close_rounds<P: Prefix>(
    p: &P,
    marks: &[Option<bool>],
    closed: u32,
    pending: &mut Pending,
    order: &mut Vec<Placed>,
) -> u32
    requires keeps { KeepsUpTo (P.graph p.now) (published_as marks.now closed order.old.items pending.old) }
    requires pending_room { length (P.graph p.now).rows ≤ pending.old.room }
    requires order_room { length (P.graph p.now).rows ≤ vec_capacity order.old }
    ensures keeps { Keeps (P.graph p.now) (published_as marks.now result order.new.items pending.new) }
    ensures grows { IsPrefix order.old.items order.new.items }
    ensures pending_room { pending.new.room ≡ pending.old.room }
    ensures order_room { vec_capacity order.new ≡ vec_capacity order.old }
{
    is_of_graph(p);
    let mut last = closed;
    'rounds: while is_next_closed(p, marks, last) {
        receive_round(p, marks, last, pending, order);
        last += 1;
    }
    last
}

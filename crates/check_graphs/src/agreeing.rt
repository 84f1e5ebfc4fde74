ghost use Rattle.std.specs.Prelude.{◌≡◌, ◌<◌, ◌↔◌, ℕ, IfSome, IsTrue, OnOk, [], get_or, length, slice_get};
ghost use Rattle.hg_model.specs.Orders.{IsPrefix};
ghost use Rattle.hg_runs.specs.Safety.{IsOnePrefix};
ghost use Rattle.check_graphs.specs.Orders.{AreOneOrder, HaveGrown, orders_in};

use crate::orders::orders_of;
use hg_check::{Order, Ordered, Score, is_prefix};
use hg_model::Memory;
use hg_world::World;
use std::alloc::Global;

/// What was compared in a world.
#[derive(Drop)]
pub struct Compared {
    /// The orders that its nodes kept last.
    pub before: Vec<Order>,
    /// How many pairs of orders were compared, and how many of them differ.
    pub score: Score,
}

/// Whether one of the two is a prefix of the other.
fn is_one_prefix(one: &[Ordered], other: &[Ordered]) -> bool
    ensures { IsTrue result ↔ IsOnePrefix one.now other.now }
{
    is_prefix(one, other) || is_prefix(other, one)
}

/// With one comparison more.
fn counted(score: Score, same: bool) -> Score
    ensures { result.differ ≡ 0 → (score.differ ≡ 0) × IsTrue same }
{
    score.with(same)
}

/// With the comparisons of the order at a place with each before it.
fn with_earlier(score: Score, orders: &[Order], place: usize) -> Score
    requires { place < length orders.now }
    ensures none { result.differ ≡ 0 → score.differ ≡ 0 }
    ensures each { result.differ ≡ 0 → (k : ℕ) → k < place → IsOnePrefix (get_or orders.now k []) (get_or orders.now place []) }
{
    let mut score = score;
    for k in 0..place {
        let same = is_one_prefix(orders[k].as_slice(), orders[place].as_slice());
        score = counted(score, same);
    }
    score
}

/// With the comparison of each two of the orders.
fn with_pairs(score: Score, orders: &[Order]) -> Score
    ensures none { result.differ ≡ 0 → score.differ ≡ 0 }
    ensures pairs { result.differ ≡ 0 → AreOneOrder orders.now }
{
    let mut score = score;
    for place in 0..orders.len() {
        score = with_earlier(score, orders, place);
    }
    score
}

/// Whether the order at a place begins with that which stood there before, if any did.
fn has_grown(before: &[Order], orders: &[Order], place: usize) -> bool
    requires { place < length orders.now }
    ensures { IsTrue result → IfSome (slice_get before.now place) (λ order. IsPrefix order (get_or orders.now place [])) }
{
    match before.get(place) {
        None => true,
        Some(order) => is_prefix(order.as_slice(), orders[place].as_slice()),
    }
}

/// With the comparison of each order with that which stood in its place before.
fn with_growth(score: Score, before: &[Order], orders: &[Order]) -> Score
    ensures none { result.differ ≡ 0 → score.differ ≡ 0 }
    ensures each { result.differ ≡ 0 → HaveGrown before.now orders.now }
{
    let mut score = score;
    for place in 0..orders.len() {
        score = counted(score, has_grown(before, orders, place));
    }
    score
}

impl Compared {
    /// Nothing compared.
    pub fn new(alloc: Global) -> Compared {
        Compared {
            before: Vec::new(alloc),
            score: Score::new(),
        }
    }

    /// Compares the orders that the nodes keep with each other, and each with that of the last time.
    pub fn compare(&mut self, alloc: Global, world: &World) -> Result<(), Memory>
        ensures kept { OnOk result (self.new.before.items ≡ orders_in world.now) }
        ensures none { self.new.score.differ ≡ 0 → self.old.score.differ ≡ 0 }
        ensures pairs { OnOk result (self.new.score.differ ≡ 0 → AreOneOrder (orders_in world.now)) }
        ensures grown { OnOk result (self.new.score.differ ≡ 0 → HaveGrown self.old.before.items (orders_in world.now)) }
    {
        let orders = orders_of(alloc, world)?;
        let score = with_pairs(self.score, orders.as_slice());
        self.score = with_growth(score, self.before.as_slice(), orders.as_slice());
        self.before = orders;
        Ok(())
    }
}

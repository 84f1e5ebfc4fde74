ghost use Rattle.std.specs.Prelude.{◌≡◌, ◌↔◌, IsTrue};
ghost use Rattle.hg_model.specs.Orders.{IsPrefix};

use hg_model::{Items, Name};
use std::marker::Model;

/// An event of an order by its name, which speaks of it at every node.
#[derive(Clone, Copy, Debug, PartialEq, Eq)]
pub struct Ordered {
    pub name: Name,
    pub received: u32,
    pub time: u64,
}

impl Model for Ordered {
    ghost use Rattle.hg_model.specs.Order as order;

    ghost Value = { order.Ordered };

    ghost view = { λ s. record { name = s.name; received = s.received; time = s.time } };

    ghost inverse = { λ s. record { name = s.name; received = s.received; time = s.time } };
}

/// An order of a node, by names.
pub type Order = Items<Ordered>;

/// Whether the first is a prefix of the second.
pub fn is_prefix(front: &[Ordered], whole: &[Ordered]) -> bool
    ensures { IsTrue result ↔ IsPrefix front.now whole.now }
{
    whole.starts_with(front)
}

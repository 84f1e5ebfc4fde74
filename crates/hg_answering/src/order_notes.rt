ghost use Rattle.std.specs.Prelude.{◌≡◌, ◌<◌, ◌≤◌, [], All, cond, length};
ghost use Rattle.hg_model.specs.declared.row.Placed.{Placed};
ghost use Rattle.hg_answering.specs.OrderNotes.{first_ordered, order_notes_of};
ghost use Rattle.hg_answering.specs.Telling.{orders_payload};

use crate::row_notes::payloads_in;
use hg_graph::EventGraph;
use hg_model::{Placed, Prefix};

/// What is noted of an order, each entry of which is looked at once.
#[derive(Clone, Copy, Debug, PartialEq, Eq)]
pub struct OrderNotes {
    /// How many entries there are.
    pub ordered: usize,
    /// How many of their rows have a payload.
    pub payloads: u64,
}

/// Whether the row of an entry has a payload, as a number.
fn ordered_payloads(graph: &EventGraph, placed: &Placed) -> u64
    requires { placed.now.place < length graph.now.graph.rows }
    ensures { result ≡ cond (orders_payload graph.now.graph.rows placed.now) 1 0 }
{
    payloads_in(graph.row(placed.place))
}

impl OrderNotes {
    /// Of no entries.
    pub fn new() -> OrderNotes
        ensures { result ≡ first_ordered [] [] 0 }
    {
        OrderNotes {
            ordered: 0,
            payloads: 0,
        }
    }

    /// Notes the entries that came since.
    pub fn follow(&mut self, graph: &EventGraph, order: &[Placed])
        requires noted { self.old ≡ first_ordered graph.now.graph.rows order.now self.old.ordered }
        requires within { self.old.ordered ≤ length order.now }
        requires places { All (λ (x : Placed). x.place < length graph.now.graph.rows) order.now }
        ensures { self.new ≡ order_notes_of graph.now.graph.rows order.now }
    {
        for i in self.ordered..order.len() {
            self.payloads += ordered_payloads(graph, &order[i]);
        }
        self.ordered = order.len();
    }
}

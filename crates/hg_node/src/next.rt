ghost use Rattle.std.specs.Prelude.{◌≡◌};
ghost use Rattle.hg_node.specs.Next.{last_other};

use hg_graph::EventGraph;
use hg_model::{Member, Name, Prefix};

/// The name of the last row that another member made.
pub fn last_other(graph: &EventGraph, own: Member) -> Option<Name>
    ensures { result ≡ last_other own graph.now.graph.rows }
{
    let mut x = graph.len();
    'rows: while 0 < x {
        x -= 1;
        let row = graph.row(x);
        if row.creator != own {
            return Some(row.name);
        }
    }
    None
}

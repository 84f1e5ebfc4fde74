use crate::playing::{equal, give, make, name_at, two_limited};
use hg_life::{Fault, MakeAnswer, MakeFault, PutAnswer};
use hg_model::{Memory, Name};
use hg_node::Node;
use hg_sign::MacTable;
use std::process::Abort;

/// Makes so many events more on the other's first one, or fewer where one is refused.
pub(crate) fn make_rows(
    node: &mut Node<MacTable>,
    other: Name,
    count: usize,
) -> Result<(), Memory> {
    for _ in 0..count {
        node.make(&[other], 1, b"")?;
    }
    Ok(())
}

/// How many rows the nodes hold here.
const LIMIT: usize = 16_384;

/// A's rows come to 16,384; B has an event that A does not.
fn fill(rt: &impl Abort, a: &mut Node<MacTable>, b: &mut Node<MacTable>) -> Result<(), Memory> {
    make(rt, a, None, 1, MakeAnswer::Made(0))?;
    make(rt, b, None, 2, MakeAnswer::Made(0))?;
    give(rt, b, 0, a, PutAnswer::Accepted(1))?;
    give(rt, a, 0, b, PutAnswer::Accepted(1))?;
    make(rt, b, Some(name_at(rt, a, 0)), 3, MakeAnswer::Made(2))?;
    make_rows(a, name_at(rt, b, 0), LIMIT - 2)?;
    equal(rt, a.rows(), 16_384);
    Ok(())
}

fn overfill(rt: &impl Abort, a: &mut Node<MacTable>, b: &Node<MacTable>) -> Result<(), Memory> {
    let full = MakeAnswer::Refused(MakeFault::Full(16_384));
    make(rt, a, Some(name_at(rt, b, 0)), 4, full)?;
    give(rt, b, 2, a, PutAnswer::Refused(Fault::Full(16_384)))?;
    give(rt, b, 0, a, PutAnswer::Known(1))?;
    equal(rt, a.rows(), 16_384);
    Ok(())
}

#[test]
fn takes_no_row_more_where_it_is_full(rt: HostRuntime) -> Result<(), Memory> {
    let (mut a, mut b) = two_limited(&rt, rt.alloc(), LIMIT)?;
    fill(&rt, &mut a.node, &mut b.node)?;
    overfill(&rt, &mut a.node, &b.node)
}

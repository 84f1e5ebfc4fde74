use crate::full_node::make_rows;
use crate::playing::{equal, give, make, name_at, two_players};
use hg_life::{MakeAnswer, PutAnswer};
use hg_model::Memory;
use hg_node::Node;
use hg_sign::MacTable;
use std::process::Abort;

/// How many rows a prefix of the node's graph has, how many of its blocks are shared, and how many rows stand behind them.
fn split(
    rt: &impl Abort,
    node: &Node<MacTable>,
    len: usize,
) -> Result<(usize, usize, usize), Memory> {
    assert!(rt; len <= node.rows());
    let frozen = node.prefix(len)?;
    Ok((frozen.len(), frozen.sealed(), frozen.tail_len()))
}

/// The node freezes so many rows in so many shared blocks, and so many rows behind them.
fn freezes(
    rt: &impl Abort,
    node: &Node<MacTable>,
    len: usize,
    sealed: usize,
    tail: usize,
) -> Result<(), Memory> {
    equal(rt, node.rows(), len);
    let frozen = node.freeze()?;
    equal(rt, frozen.len(), len);
    equal(rt, frozen.sealed(), sealed);
    equal(rt, frozen.tail_len(), tail);
    Ok(())
}

fn grow(rt: &impl Abort, a: &mut Node<MacTable>, b: &mut Node<MacTable>) -> Result<(), Memory> {
    freezes(rt, a, 0, 0, 0)?;
    make(rt, a, None, 1, MakeAnswer::Made(0))?;
    make(rt, b, None, 1, MakeAnswer::Made(0))?;
    give(rt, b, 0, a, PutAnswer::Accepted(1))?;
    let other = name_at(rt, b, 0);
    make_rows(a, other, 62)?;
    freezes(rt, a, 64, 0, 64)?;
    make_rows(a, other, 64)?;
    freezes(rt, a, 128, 1, 64)?;
    make_rows(a, other, 2)?;
    freezes(rt, a, 130, 2, 2)
}

/// A prefix is split as a freeze of as many rows.
fn cuts(rt: &impl Abort, a: &Node<MacTable>) -> Result<(), Memory> {
    equal(rt, split(rt, a, 0)?, (0, 0, 0));
    equal(rt, split(rt, a, 64)?, (64, 0, 64));
    equal(rt, split(rt, a, 65)?, (65, 1, 1));
    equal(rt, split(rt, a, 128)?, (128, 1, 64));
    equal(rt, split(rt, a, 130)?, (130, 2, 2));
    Ok(())
}

#[test]
fn freezes_by_blocks_of_64(rt: HostRuntime) -> Result<(), Memory> {
    let (mut a, mut b) = two_players(&rt, rt.alloc())?;
    grow(&rt, &mut a.node, &mut b.node)?;
    cuts(&rt, &a.node)
}

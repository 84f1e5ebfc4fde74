use crate::playing::{begin, equal, sync, two_players};
use hg_life::Effect;
use hg_model::Memory;
use hg_node::Node;
use hg_sign::MacTable;
use std::process::Abort;

/// B=30 and B=80 by A; A=31 and A=0 by B; A=70 and 1 to the third member by A; and bytes that are no transfers.
const PAYLOADS: [&[u8]; 4] = [
    b"\x02\x00\x01\x00\x00\x00\x00\x00\x00\x00\x1e\x00\x01\x00\x00\x00\x00\x00\x00\x00\x50",
    b"\x02\x00\x00\x00\x00\x00\x00\x00\x00\x00\x1f\x00\x00\x00\x00\x00\x00\x00\x00\x00\x00",
    b"\x02\x00\x00\x00\x00\x00\x00\x00\x00\x00\x46\x00\x02\x00\x00\x00\x00\x00\x00\x00\x01",
    b"\x01\x02\x03",
];

/// Publishes what a node's graph decides.
fn settle(node: &mut Node<MacTable>) -> Result<(), Memory> {
    node.settle()
}

/// B settles more than once, and pays each event once.
fn play(a: &mut Node<MacTable>, b: &mut Node<MacTable>) -> Result<(), Memory> {
    begin(a, 1, PAYLOADS[0])?;
    begin(b, 2, PAYLOADS[1])?;
    sync(a, b, 3, PAYLOADS[2])?;
    sync(b, a, 4, PAYLOADS[3])?;
    for (to_a, to_b) in [(5, 6), (7, 8)] {
        sync(a, b, to_a, b"")?;
        sync(b, a, to_b, b"")?;
        settle(b)?;
    }
    settle(a)?;
    settle(b)
}

fn check(rt: &impl Abort, node: &Node<MacTable>, rows: usize, effects: &[Effect], left: [u64; 2]) {
    equal(rt, node.rows(), rows);
    equal(rt, node.kept().len(), effects.len());
    equal(rt, node.effects(), effects);
    equal(rt, node.book().balances(), left.as_slice());
}

#[test]
fn pays_what_it_orders(rt: HostRuntime) -> Result<(), Memory> {
    let (mut a, mut b) = two_players(&rt, rt.alloc())?;
    play(&mut a.node, &mut b.node)?;
    let paid = Effect::Paid { done: 1, of: 2 };
    check(
        &rt,
        &b.node,
        8,
        &[paid, paid, paid, Effect::Unread],
        [70, 30],
    );
    check(&rt, &a.node, 7, &[], [100, 0]);
    Ok(())
}

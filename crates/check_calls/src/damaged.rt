//! Events that were cut or altered on the way.

use crate::playing::{begin, bytes_of, equal, give, two_players};
use hg_life::{ByteFault, Fault, PutAnswer};
use hg_model::Memory;
use hg_node::Node;
use hg_sign::MacTable;
use std::alloc::Global;
use std::process::Abort;

/// The shortest event there is: of this creator, at time 1, with a signature of zero bytes.
pub(crate) fn shortest_event(creator: u8) -> [u8; 81] {
    let mut bytes = [0; 81];
    bytes[0] = 0x48;
    bytes[1] = 0x47;
    bytes[2] = 0x45;
    bytes[3] = 0x31;
    bytes[5] = creator;
    bytes[14] = 1;
    bytes
}

/// Puts these bytes, which the node is to refuse so; it stays without rows.
fn refuse(
    rt: &impl Abort,
    node: &mut Node<MacTable>,
    bytes: &[u8],
    fault: Fault,
) -> Result<(), Memory> {
    equal(rt, node.put(bytes)?, PutAnswer::Refused(fault));
    equal(rt, node.rows(), 0);
    Ok(())
}

fn refuse_fronts(
    rt: &impl Abort,
    node: &mut Node<MacTable>,
    event: &[u8; 81],
) -> Result<(), Memory> {
    for len in 0..event.len() {
        refuse(rt, node, &event[..len], Fault::Bytes(ByteFault::Short(len)))?;
    }
    refuse(rt, node, event, Fault::Signature)
}

#[test]
fn knows_a_cut_event(rt: HostRuntime) -> Result<(), Memory> {
    let (_a, mut b) = two_players(&rt, rt.alloc())?;
    refuse_fronts(&rt, &mut b.node, &shortest_event(0))
}

#[test]
fn knows_no_third_member(rt: HostRuntime) -> Result<(), Memory> {
    let (mut a, _b) = two_players(&rt, rt.alloc())?;
    refuse(&rt, &mut a.node, &shortest_event(2), Fault::Member(2))
}

const SHORT: Fault = Fault::Bytes(ByteFault::Short(81));

/// A first event with one byte, from the first of these places to the last, XORed with this is refused so.
const ALTERED: [(usize, usize, u8, Fault); 9] = [
    (0, 3, 1, Fault::Bytes(ByteFault::BadMagic)),
    (3, 3, 3, Fault::Bytes(ByteFault::BadKind(0))),
    (4, 4, 1, Fault::Member(256)),
    (5, 5, 1, Fault::Signature),
    (6, 6, 1, SHORT),
    (7, 14, 1, Fault::Signature),
    (15, 16, 1, SHORT),
    (15, 15, 8, Fault::Bytes(ByteFault::BadLength(2048))),
    (17, 80, 1, Fault::Signature),
];

/// The bytes of the event, with the one at this place XORed with the mask.
pub(crate) fn altered(
    rt: &impl Abort,
    alloc: Global,
    event: &[u8],
    at: usize,
    mask: u8,
) -> Result<Vec<u8>, Memory> {
    let mut bytes = Vec::from_slice(alloc, event)?;
    assert!(rt; at < bytes.len());
    bytes[at] ^= mask;
    Ok(bytes)
}

fn refuse_altered(
    rt: &impl Abort,
    alloc: Global,
    node: &mut Node<MacTable>,
    event: &[u8],
    row: &(usize, usize, u8, Fault),
) -> Result<(), Memory> {
    let (first, last, mask, fault) = *row;
    for at in first..=last {
        let bytes = altered(rt, alloc, event, at, mask)?;
        refuse(rt, node, bytes.as_slice(), fault)?;
    }
    Ok(())
}

fn refuse_all(
    rt: &impl Abort,
    alloc: Global,
    a: &mut Node<MacTable>,
    b: &mut Node<MacTable>,
) -> Result<(), Memory> {
    begin(a, 1, b"")?;
    for row in &ALTERED {
        refuse_altered(rt, alloc, b, bytes_of(rt, a, 0), row)?;
    }
    give(rt, a, 0, b, PutAnswer::Accepted(0))
}

#[test]
fn knows_an_altered_event(rt: HostRuntime) -> Result<(), Memory> {
    let (mut a, mut b) = two_players(&rt, rt.alloc())?;
    refuse_all(&rt, rt.alloc(), &mut a.node, &mut b.node)
}

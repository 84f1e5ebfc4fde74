ghost use Rattle.std.specs.Prelude.{◌≡◌, ◌≤◌, IfOk, MatchOption, None, OnErr, Some, length};
ghost use Rattle.std.specs.Int.{from_be_bytes, w32};
ghost use Rattle.hg_life.specs.NodeView.{node_rows};
ghost use Rattle.hg_node.specs.Puts.{WouldAccept};
ghost use Rattle.hg_node.specs.Restore.{WouldRestore};
ghost use Rattle.hg_node.specs.Replay.StoredChange.{StoredMade, StoredMarked, StoredTook};
ghost use Rattle.hg_journal.specs.Journal.{CanMark, ComesAgain, NeedsMemory, marked_body, marked_in, next_node, node_if};

use hg_model::{Memory, Share};
use hg_node::Node;
use hg_sign::Signer;

/// The kinds of records: an event that was taken, one that was made, and marks.
pub(crate) const TOOK: u8 = 1;

pub(crate) const MADE: u8 = 2;

pub(crate) const MARKED: u8 = 3;

// The number in the first four bytes.
fn number_in(bytes: &[u8]) -> u32
    requires { 4 ≤ length bytes.now }
    ensures { result ≡ from_be_bytes w32 bytes.now }
{
    u32::from_be_bytes([bytes[0], bytes[1], bytes[2], bytes[3]])
}

// In how many first rows which share of how many was marked, as a record's body tells it.
fn marked_of(body: &[u8]) -> Option<(u32, u32, u32)>
    ensures { MatchOption result (marked_in body.now ≡ None) (λ m. marked_in body.now ≡ Some (StoredMarked m.0 m.1 m.2)) }
{
    if body.len() != 12 {
        return None;
    }
    let len = number_in(body);
    let k = number_in(&body[4..]);
    let of = number_in(&body[8..]);
    Some((len, k, of))
}

/// The body of a record of marks.
pub(crate) fn marked_bytes(len: u32, share: Share) -> [u8; 12]
    ensures { result ≡ marked_body len share.k share.of }
{
    let [a, b, c, d] = len.to_be_bytes();
    let [e, f, g, h] = share.k().to_be_bytes();
    let [i, j, k, l] = share.of().to_be_bytes();
    [a, b, c, d, e, f, g, h, i, j, k, l]
}

// An event that was taken comes again; answers whether it changed the node.
fn put_again<V: Signer>(node: &mut Node<V>, bytes: &[u8]) -> Result<bool, Memory>
    ensures came { IfOk result (ComesAgain V.accepts node.old (StoredTook bytes.now) node.new) }
    ensures free { OnErr result (WouldAccept V.accepts node.old bytes.now) }
{
    let before = node.changes();
    node.put(bytes)?;
    Ok(before < node.changes())
}

// So does one that was made.
fn restore_again<V: Signer>(node: &mut Node<V>, bytes: &[u8]) -> Result<bool, Memory>
    ensures came { IfOk result (ComesAgain V.accepts node.old (StoredMade bytes.now) node.new) }
    ensures free { OnErr result (WouldRestore V.accepts node.old bytes.now) }
{
    let before = node.changes();
    node.restore(bytes)?;
    Ok(before < node.changes())
}

// So do marks.
fn mark_again<V: Signer>(node: &mut Node<V>, len: usize, share: Share) -> Result<bool, Memory>
    requires { len ≤ length (node_rows node.old) }
    ensures { IfOk result (ComesAgain V.accepts node.old (StoredMarked len share.k share.of) node.new) }
{
    share.k();
    let before = node.changes();
    node.remark(len, share)?;
    Ok(before < node.changes())
}

// So do marks as a record's body tells them. Where it tells none that there can be, no memory is asked for.
fn remark_again<V: Signer>(node: &mut Node<V>, body: &[u8]) -> Result<bool, Memory>
    ensures came { IfOk result (λ came. next_node V.accepts node.old 3 body.now ≡ node_if came node.new) }
    ensures free { OnErr result (CanMark node.old body.now) }
{
    let Some((len, k, of)) = marked_of(body) else {
        return Ok(false);
    };
    if node.rows() < len as usize {
        return Ok(false);
    }
    if of <= k {
        return Ok(false);
    }
    mark_again(node, len as usize, Share::new(k, of))
}

/// What a record of this kind and body tells comes again to the node. Answers whether it changed it; where it did not, it is
/// broken.
pub(crate) fn come_again<V: Signer>(
    node: &mut Node<V>,
    kind: u8,
    body: &[u8],
) -> Result<bool, Memory>
    ensures came { IfOk result (λ came. next_node V.accepts node.old kind body.now ≡ node_if came node.new) }
    ensures free { OnErr result (NeedsMemory V.accepts node.old kind body.now) }
{
    match kind {
        TOOK => put_again(node, body),
        MADE => restore_again(node, body),
        MARKED => remark_again(node, body),
        _ => Ok(false),
    }
}

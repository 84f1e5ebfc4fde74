ghost use Rattle.std.specs.Prelude.{◌≡◌, ◌<◌, ◌≤◌, ◌^◌, ◌++◌, All, length, take, IfOk, OnOk};
ghost use Rattle.hg_model.specs.declared.row.Placed.{Placed};
ghost use Rattle.std.specs.List.{AllByRecursion};
ghost use Rattle.hg_proof.specs.Certificate.{AreEntries, IsEntry, certificate_bytes, entries_bytes, entry_bytes, rows_bytes};
ghost use Rattle.hg_proof.specs.Least.{first_rows};

use crate::fields::MAGIC;
use hg_graph::EventGraph;
use hg_model::{Memory, Placed};
use std::alloc::Global;

/// Writes the first events of a graph, end to end.
fn push_rows(bytes: &mut Vec<u8>, graph: &EventGraph, len: usize) -> Result<(), Memory>
    requires { len ≤ length graph.now.graph.rows }
    ensures { OnOk result (bytes.new.items ≡ bytes.old.items ++ rows_bytes (take len graph.now.graph.rows)) }
{
    for place in 0..len {
        bytes.extend_from_slice(graph.bytes(place))?;
    }
    Ok(())
}

/// Writes an entry of an order.
fn push_entry(bytes: &mut Vec<u8>, p: &Placed) -> Result<(), Memory>
    requires { p.now.place < 2 ^ 32 }
    ensures bytes { OnOk result (bytes.new.items ≡ bytes.old.items ++ entry_bytes p.now) }
    ensures sized { OnOk result (IsEntry p.now) }
{
    bytes.extend_from_slice(&(p.place as u32).to_be_bytes())?;
    bytes.extend_from_slice(&p.received.to_be_bytes())?;
    bytes.extend_from_slice(&p.time.to_be_bytes())?;
    Ok(())
}

/// Writes the entries, end to end.
fn push_entries(bytes: &mut Vec<u8>, order: &[Placed]) -> Result<(), Memory>
    requires { All (λ (p : Placed). p.place < 2 ^ 32) order.now }
    ensures bytes { OnOk result (bytes.new.items ≡ bytes.old.items ++ entries_bytes order.now) }
    ensures sized { OnOk result (AllByRecursion IsEntry order.now) }
{
    for p in order {
        push_entry(bytes, p)?;
    }
    Ok(())
}

/// The certificate that has the first rows of a graph and this order.
#[tactic(auto, unfolding(crate::specs::Certificate::certificate_bytes))]
pub(crate) fn certificate_bytes(
    alloc: Global,
    graph: &EventGraph,
    len: usize,
    order: &[Placed],
) -> Result<Vec<u8>, Memory>
    requires len { len ≤ length graph.now.graph.rows }
    requires few { length order.now < 2 ^ 32 }
    requires places { All (λ (p : Placed). p.place < 2 ^ 32) order.now }
    ensures bytes { IfOk result (λ bytes. bytes.items ≡ certificate_bytes (first_rows graph.now.graph len order.now)) }
    ensures sized { IfOk result (λ bytes. AreEntries order.now) }
{
    // That the rows are not too many for their count.
    graph.len();
    let mut bytes = Vec::new(alloc);
    bytes.extend_from_slice(MAGIC.as_slice())?;
    bytes.extend_from_slice(&(len as u32).to_be_bytes())?;
    push_rows(&mut bytes, graph, len)?;
    bytes.extend_from_slice(&(order.len() as u32).to_be_bytes())?;
    push_entries(&mut bytes, order)?;
    Ok(bytes)
}

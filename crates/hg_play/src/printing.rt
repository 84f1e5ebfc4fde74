ghost use Rattle.std.specs.Prelude.{◌≡◌, ◌<◌, ◌≤◌, ◌+◌, All, IfOk, length};
ghost use Rattle.hg_model.specs.declared.row.Placed.{Placed};
ghost use Rattle.hg_model.specs.Places.{table};
ghost use Rattle.hg_model.specs.Links.{self_parent};
ghost use Rattle.hg_model.specs.Order.{sequence_of};
ghost use Rattle.hg_outcome.specs.Ledger.{order_line};
ghost use Rattle.hg_model.specs.Prefix.{links_of};
ghost use Rattle.hg_play.specs.Printing.{lines_of};

use hg_life::Effect;
use hg_model::{Items, Memory, Placed, Prefix, Sight, is_of_graph, is_shaped};
use hg_outcome::OrderLine;
use std::alloc::Global;

/// How many self-ancestors the next row has, other than itself, where its self-parent is at this place.
#[tactic(auto)]
fn next_sequence<S: Sight>(sight: &S, sequences: &[u64], x: usize) -> u64
    requires place { x < length (S.shape sight.now).links }
    requires before { sequences.now ≡ table (sequence_of (S.shape sight.now).links) x }
    ensures { result ≡ sequence_of (S.shape sight.now).links x }
{
    is_shaped(sight);
    match sight.self_parent(x) {
        None => 0,
        Some(own) => sequences[own] + 1,
    }
}

/// How many self-ancestors each of so many first rows has, other than itself.
fn sequences<S: Sight>(alloc: Global, sight: &S, end: usize) -> Result<Vec<u64>, Memory>
    requires { end ≤ length (S.shape sight.now).links }
    ensures { IfOk result (λ v. v.items ≡ table (sequence_of (S.shape sight.now).links) end) }
{
    let mut sequences = Vec::new(alloc);
    for x in 0..end {
        let sequence = next_sequence(sight, sequences.as_slice(), x);
        sequences.push(sequence)?;
    }
    Ok(sequences)
}

/// One more than the greatest place of an order, or 0: rows behind it are not printed.
fn end_of(len: usize, order: &[Placed]) -> usize
    requires { All (λ (x : Placed). x.place < len) order.now }
    ensures places { All (λ (x : Placed). x.place < result) order.now }
    ensures within { result ≤ len }
{
    let mut end = 0;
    for placed in order {
        end = end.max(placed.place + 1);
    }
    end
}

/// A row of the order as it is printed.
fn order_line<P: Prefix>(p: &P, sequences: &[u64], placed: &Placed, effect: Effect) -> OrderLine
    requires place { placed.now.place < length (P.graph p.now).rows }
    requires counted { placed.now.place < length sequences.now }
    requires sequences { sequences.now ≡ table (sequence_of (links_of (P.graph p.now))) (length sequences.now) }
    ensures { result ≡ order_line (P.graph p.now).rows (links_of (P.graph p.now)) placed.now effect }
{
    is_of_graph(p);
    OrderLine {
        creator: p.creator(placed.place),
        sequence: sequences[placed.place],
        received: placed.received,
        time: placed.time,
        effect,
        name: p.row(placed.place).name,
    }
}

/// The rows of an order as they are printed, each with what came of it.
pub fn order_lines<P: Prefix>(
    alloc: Global,
    p: &P,
    order: &[Placed],
    effects: &[Effect],
) -> Result<Items<OrderLine>, Memory>
    requires places { All (λ (x : Placed). x.place < length (P.graph p.now).rows) order.now }
    requires each { length effects.now ≡ length order.now }
    ensures { IfOk result (λ lines. lines ≡ lines_of (P.graph p.now) order.now effects.now) }
{
    is_of_graph(p);
    let end = end_of(p.rows(), order);
    let sequences = sequences(alloc, p, end)?;
    let mut lines = Vec::new(alloc);
    for (i, placed) in order.iter().enumerate() {
        lines.push(order_line(p, sequences.as_slice(), placed, effects[i]))?;
    }
    Ok(Items::from_vec(lines))
}

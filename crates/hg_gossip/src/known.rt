ghost use Rattle.std.specs.Prelude.{◌≡◌, ◌<◌, IfOk, length, replicate};
ghost use Rattle.hg_graph.specs.RowsWithRoom.{rows_of};
ghost use Rattle.hg_gossip.specs.Handing.{all_heard, heard_of, none_heard};
ghost use Rattle.hg_gossip.specs.Known.{IsSquare, KeepsAll, KeepsAny, KeepsRest, all_noted, handed, heard_by, nothing_heard, with_heard};

use crate::handing::Heard;
use hg_event::Event;
use hg_model::Memory;
use std::alloc::Global;
use std::marker::Model;
use std::sync::Arc;

/// What a node has heard of each node.
#[derive(Drop)]
struct Hearing {
    of: Vec<Heard>,
}

impl Model for Hearing {
    ghost use Rattle.std.specs.Prelude.{List};
    ghost use Rattle.hg_gossip.specs.Handing.{HeardView};

    ghost Value = { List HeardView };

    ghost view = { λ s. s.of.items };
}

/// What each of some nodes has heard of each, in the nodes' order. It holds no node: it is kept for nodes of whatever
/// rows of which each has what it has heard, and stays so while their rows only get more.
#[derive(Drop)]
pub struct Known {
    by: Vec<Hearing>,
}

impl Model for Known {
    ghost use Rattle.std.specs.Prelude.{List};
    ghost use Rattle.hg_gossip.specs.Handing.{HeardView};
    ghost use Rattle.hg_gossip.specs.Known.{IsSquare};

    ghost Value = { List (List HeardView) };

    ghost view = { λ s. s.by.items };

    ghost invariant = { λ s. IsSquare s.by.items };
}

impl Known {
    /// So many nodes have heard of nothing.
    pub fn none(alloc: Global, count: usize) -> Result<Known, Memory>
        ensures value { IfOk result (λ known. known ≡ nothing_heard count) }
        ensures keeps { IfOk result (KeepsAny count) }
    {
        let mut by = Vec::with_capacity(alloc, count)?;
        for _ in 0..count {
            by.push(none_heard(alloc, count)?)?;
        }
        Ok(Known { by })
    }

    /// What the node `x` has heard of the node `y`.
    pub fn heard(&self, x: usize, y: usize) -> &Heard
        requires x { x < length self.now }
        requires y { y < length self.now }
        ensures { result.now ≡ heard_by self.now x y }
    {
        &self.by[x].of[y]
    }

    /// Sets it.
    fn set(&mut self, x: usize, y: usize, heard: Heard)
        requires x { x < length self.old }
        requires y { y < length self.old }
        ensures value { self.new ≡ with_heard self.old x y heard }
        ensures square { IsSquare self.old }
    {
        self.by[x].of[y] = heard;
    }

    /// What the node `y` has of the node `z`, with nothing refused, the node `x` has too.
    fn hand_one_on(&mut self, alloc: Global, x: usize, y: usize, z: usize)
        requires x { x < length self.old }
        requires y { y < length self.old }
        requires z { z < length self.old }
        ensures { self.new ≡ handed self.old x y z }
    {
        let heard = self.heard(y, z);
        let len = heard.len;
        if heard.refused.is_empty() && self.heard(x, z).len < len {
            self.set(x, z, all_heard(alloc, len));
        }
    }

    /// The node `x` has the names of all `len` rows of the node `y`, and so of those that `y` is known to have, of any
    /// node, with nothing refused.
    pub fn note_all(&mut self, alloc: Global, x: usize, y: usize, len: usize)
        requires x { x < length self.old }
        requires y { y < length self.old }
        ensures noted { self.new ≡ all_noted self.old x y len }
        ensures keeps { KeepsAll self.old x y len self.new }
    {
        for z in 0..self.by.len() {
            self.hand_one_on(alloc, x, y, z);
        }
        self.set(x, y, all_heard(alloc, len));
    }

    /// Of the `len` rows of the node `y` the node `x` lacks the names of these refused ones at most.
    pub fn note_rest(&mut self, x: usize, y: usize, len: usize, refused: Vec<Arc<Event>>)
        requires x { x < length self.old }
        requires y { y < length self.old }
        ensures noted { self.new ≡ with_heard self.old x y (heard_of len (rows_of refused.items)) }
        ensures keeps { KeepsRest self.old x y len (rows_of refused.items) self.new }
    {
        self.set(x, y, Heard { len, refused });
    }
}

/// All of these first rows: none was refused.
fn all_heard(alloc: Global, len: usize) -> Heard
    ensures { result ≡ all_heard len }
{
    Heard {
        len,
        refused: Vec::new(alloc),
    }
}

/// A node that has heard of none of so many.
fn none_heard(alloc: Global, count: usize) -> Result<Hearing, Memory>
    ensures { IfOk result (λ hearing. hearing ≡ replicate count none_heard) }
{
    let mut of = Vec::with_capacity(alloc, count)?;
    for _ in 0..count {
        of.push(all_heard(alloc, 0))?;
    }
    Ok(Hearing { of })
}

// What a seat knows of the shared node. Contracts alone speak of it: no value of these types is made.
use hg_node::Node;
use hg_sign::Signer;
use std::collections::LinkedList;
use std::marker::Model;

/// A history, or a part of one.
pub struct Changes;

impl Model for Changes {
    ghost use Rattle.std.specs.Prelude.{List, []};
    ghost use Rattle.hg_life.specs.History.{Change};

    ghost Value = { List Change };

    ghost view = { λ _. [] };
}

/// Whether a seat holds the turn.
pub enum Hold {
    Free,
    /// It does, and this was the history when it took it.
    Taken(Changes),
    /// It does, and has seen the whole history.
    Loaded,
}

pub struct View<V: Signer> {
    /// The node that the table was started with. A seat that was absorbed has none.
    pub start: Option<Node<V>>,
    /// The history so far, as this seat knows it.
    pub seen: Changes,
    /// What of two joined seats the one that knew less had seen, until the two are compared.
    pub told: Changes,
    /// The positions in the history of the changes that its calls added.
    pub mine: LinkedList<usize>,
    /// Its share of the right to know the whole.
    pub parts: u64,
    pub hold: Hold,
}

ghost use Rattle.std.specs.Prelude.{◌≡◌, ◌<◌, ◌++◌, ◌∷◌, [], IfOk, OnOk, Some, length, map};
ghost use Rattle.hg_life.specs.NodeView.{node_rows};
ghost use Rattle.hg_life.specs.Spelling.{spelling};
ghost use Rattle.hg_gossip.specs.Holding.{row_names, unnamed, with_row_at, HaveSame};

use crate::holder::Holder;
use hg_life::{MakeAnswer, Parcel, PutAnswer};
use hg_model::{Bytes, Items, Memory, Name};
use hg_node::Node;
use hg_sign::Signer;
use indexmap::IndexSet;
use std::alloc::Global;

/// The names of a node's rows.
fn names<V: Signer>(alloc: Global, node: &Node<V>) -> Result<Vec<Name>, Memory>
    ensures { IfOk result (λ names. names.items ≡ row_names (node_rows node.now)) }
{
    let mut names = Vec::new(alloc);
    for place in 0..node.rows() {
        names.push(node.row(place).name)?;
    }
    Ok(names)
}

/// Enters one more name, unless it is there.
fn enter(set: &mut IndexSet<Name>, name: Name) -> Result<(), Memory>
    ensures { OnOk result (HaveSame set.new.keys (set.old.keys ++ name ∷ [])) }
{
    set.insert(name)?;
    Ok(())
}

/// The names, each once, to be looked up.
fn set_of(alloc: Global, names: &[Name]) -> Result<IndexSet<Name>, Memory>
    ensures { IfOk result (λ set. HaveSame set.keys names.now) }
{
    let mut set = IndexSet::new(alloc);
    for name in names {
        enter(&mut set, *name)?;
    }
    Ok(set)
}

fn copied(alloc: Global, bytes: &[u8]) -> Result<Bytes, Memory>
    ensures { IfOk result (λ copy. copy ≡ bytes.now) }
{
    Ok(Items::from_vec(Vec::from_slice(alloc, bytes)?))
}

/// The bytes of a row of the node behind the others, unless its name is among these.
fn push_unless_named<V: Signer>(
    alloc: Global,
    rows: &mut Vec<Bytes>,
    named: &IndexSet<Name>,
    node: &Node<V>,
    place: usize,
) -> Result<(), Memory>
    requires { place < length (node_rows node.now) }
    ensures { OnOk result (with_row_at (node_rows node.now) place named.now.keys rows.old.items ≡ Some rows.new.items) }
{
    if !named.contains(&node.row(place).name) {
        rows.push(copied(alloc, node.bytes(place))?)?;
    }
    Ok(())
}

/// The bytes of a node's rows whose names are not in the set.
fn rows_outside<V: Signer>(
    alloc: Global,
    named: &IndexSet<Name>,
    node: &Node<V>,
) -> Result<Vec<Bytes>, Memory>
    ensures { IfOk result (λ rows. rows.items ≡ map spelling (unnamed named.now.keys (node_rows node.now))) }
{
    let mut rows = Vec::new(alloc);
    for place in 0..node.rows() {
        push_unless_named(alloc, &mut rows, named, node, place)?;
    }
    Ok(rows)
}

/// The bytes of a node's rows that have none of the names.
fn rows_beyond<V: Signer>(
    alloc: Global,
    names: &[Name],
    node: &Node<V>,
) -> Result<Vec<Bytes>, Memory>
    ensures { IfOk result (λ rows. rows.items ≡ map spelling (unnamed names.now (node_rows node.now))) }
{
    let named = set_of(alloc, names)?;
    rows_outside(alloc, &named, node)
}

impl<V: Signer> Holder for Node<V> {
    ghost use Rattle.hg_gossip.specs.Holding.{rules_alone, seen_whole};

    type Keys = V;

    ghost rules = { rules_alone V.accepts };

    ghost seen = { λ v. seen_whole v };

    ghost Loan = { Unit {0} };

    ghost lent = { λ _. tt };

    fn held(&mut self, alloc: Global) -> Result<Vec<Name>, Memory> {
        names(alloc, self)
    }

    fn missing(&mut self, alloc: Global, names: &[Name]) -> Result<Parcel, Memory> {
        let rows = rows_beyond(alloc, names, self)?;
        Ok(Parcel {
            rows: Items::from_vec(rows),
            last: self.last_name(),
        })
    }

    fn tips(&mut self) -> Result<Vec<Name>, Memory> {
        Node::tips(self)
    }

    fn beyond(&mut self, names: &[Name]) -> Result<Parcel, Memory> {
        Node::beyond(self, names)
    }

    fn put(&mut self, bytes: &[u8]) -> Result<PutAnswer, Memory> {
        Node::put(self, bytes)
    }

    fn make(&mut self, others: &[Name], time: u64, payload: &[u8]) -> Result<MakeAnswer, Memory> {
        Node::make(self, others, time, payload)
    }
}

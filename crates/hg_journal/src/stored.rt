ghost use Rattle.std.specs.Prelude.{◌≡◌, ◌+◌, ◌<◌, ◌≤◌, ◌^◌, [], ℕ, List, None, Some, IfOk, IsErrOf, IsSome, OnErr, OnOk, length, option_map};
ghost use Rattle.std.specs.Bool.{Decides};
ghost use Rattle.std.specs.Option.{ForSome};
ghost use Rattle.hg_model.specs.Links.{most_others};
ghost use Rattle.hg_life.specs.Calls.{publish_answer, put_answer};
ghost use Rattle.hg_life.specs.NodeView.{node_rows};
ghost use Rattle.hg_node.specs.Puts.{WouldAccept, after_put};
ghost use Rattle.hg_node.specs.Restore.{WouldRestore, after_restore, restore_answer};
ghost use Rattle.hg_journal.specs.Staging.{AddsMade, StageFrame, StopsKeepStaged, StoreFrame};
ghost use Rattle.hg_journal.specs.Stored.{IsDrafted, MakesNode, StoresWritten, after_marks};

use crate::again::{MADE, MARKED, TOOK, marked_bytes};
use crate::errors::StoreError;
use crate::tail::Tail;
use hg_io::{Disk, Failed};
use hg_life::{MakeAnswer, PutAnswer};
use hg_model::{Name, Share};
use hg_node::{Node, histories_are_short, restores_are_makes, stored_changes_replay};
use hg_sign::Signer;
use std::marker::Model;

/// A node that is kept in a file. Its changes are staged, which takes no call on the disk, and then stored at once by `commit`;
/// or each is stored by the call that makes it. What is staged is to be answered to nobody before it is stored. Once the disk has
/// failed the node is closed: it shows none, and is to be opened again. The disk and the calls' started file are the caller's.
#[derive(Drop)]
pub struct Stored<V: Signer> {
    node: Option<Node<V>>,
    // How many of the node's changes the file has.
    written: usize,
    tail: Tail,
}

impl<V: Signer> Model for Stored<V> {
    ghost use Rattle.std.specs.Prelude.{◌≡◌, [], None, length, option_map};
    ghost use Rattle.std.specs.Option.{ForSome};
    ghost use Rattle.hg_journal.specs.Staging.{IsStaged};
    ghost use Rattle.hg_journal.specs.Stored.{StoredView, node_at};

    ghost Value = { StoredView V };

    ghost view = { λ s. record {
      node = s.node;
      written = option_map (node_at s.written) s.node;
      pending = length s.tail.records;
      name = s.tail.name;
      gate = s.tail.gate;
    } };

    ghost invariant = { λ s.
        ForSome s.node (IsStaged V.accepts s.written s.tail.gate s.tail.records) × (s.node ≡ None → s.tail.records ≡ []) };
}

// Adds the event at this place, which the node has made.
fn add_made<V: Signer>(tail: &mut Tail, node: &Node<V>, place: usize)
    requires place { place < length (node_rows node.now) }
    requires room { length tail.old.records ≤ 64000 }
    ensures name { tail.new.name ≡ tail.old.name }
    ensures gate { tail.new.gate ≡ tail.old.gate }
    ensures records { AddsMade node.now place tail.old.records tail.new.records }
{
    histories_are_short();
    let event = node.event(place);
    event.is_event();
    tail.add(MADE, event.bytes());
}

impl<V: Signer + Drop> Stored<V> {
    ghost use Rattle.hg_journal.specs.Stored.{IsNear};

    /// The node, whose journal has this end.
    pub(crate) fn new(node: Node<V>, tail: Tail) -> Stored<V>
        requires near { IsNear tail.gate node }
        requires none { tail.records ≡ [] }
        ensures { result ≡ record { node = Some node; written = Some node; pending = 0; name = tail.name; gate = tail.gate } }
    {
        let written = node.changes();
        Stored {
            node: Some(node),
            written,
            tail,
        }
    }

    /// The node, with all that is staged; `None` once the disk has failed.
    pub fn node(&self) -> Option<&Node<V>>
        ensures { option_map (λ node. node.now) result ≡ self.now.node }
    {
        self.node.as_ref()
    }

    /// Whether what is staged is to be stored before a further change is staged: its records have more than 64,000 bytes.
    pub fn is_full(&self) -> bool
        ensures { Decides result (64000 < self.now.pending) }
    {
        self.tail.is_full()
    }

    /// Puts the bytes of an event, as `Node::put` does, and stages the event where it is accepted.
    pub fn stage_put(&mut self, bytes: &[u8]) -> Result<PutAnswer, StoreError>
        requires room { self.old.pending ≤ 64000 }
        ensures answer { IfOk result (λ answer. ForSome self.old.node (λ v. answer ≡ put_answer V.accepts v bytes.now)) }
        ensures ok { OnOk result (ForSome self.old.node (λ v. self.new.node ≡ Some (after_put V.accepts v bytes.now))) }
        ensures memory { OnErr result (self.new ≡ self.old) }
        ensures free { IsErrOf result StoreError.Memory → ForSome self.old.node (λ v. WouldAccept V.accepts v bytes.now) }
        ensures frame { StageFrame 1 result self.old self.new }
    {
        let Some(node) = &mut self.node else {
            return Err(StoreError::Closed);
        };
        stored_changes_replay::<V>();
        let answer = node.put(bytes)?;
        if let PutAnswer::Accepted(_) = answer {
            self.tail.add(TOOK, bytes);
        }
        Ok(answer)
    }

    /// Puts the bytes of an event that the node made before, and that comes back to it, as `Node::restore` does, and stages it as
    /// one that was made where it is accepted.
    pub fn stage_restore(&mut self, bytes: &[u8]) -> Result<PutAnswer, StoreError>
        requires room { self.old.pending ≤ 64000 }
        ensures answer { IfOk result (λ answer. ForSome self.old.node (λ v. answer ≡ restore_answer V.accepts v bytes.now)) }
        ensures ok { OnOk result (ForSome self.old.node (λ v. self.new.node ≡ Some (after_restore V.accepts v bytes.now))) }
        ensures memory { OnErr result (self.new ≡ self.old) }
        ensures free { IsErrOf result StoreError.Memory → ForSome self.old.node (λ v. WouldRestore V.accepts v bytes.now) }
        ensures frame { StageFrame 1 result self.old self.new }
    {
        let Some(node) = &mut self.node else {
            return Err(StoreError::Closed);
        };
        histories_are_short();
        restores_are_makes::<V>();
        let answer = node.restore(bytes)?;
        if let PutAnswer::Accepted(_) = answer {
            self.tail.add(MADE, bytes);
        }
        Ok(answer)
    }

    /// Makes an event of the node's member, as `Node::make` does, and stages it.
    pub fn stage_make(
        &mut self,
        others: &[Name],
        time: u64,
        payload: &[u8],
    ) -> Result<MakeAnswer, StoreError>
        requires few { length others.now ≤ most_others }
        requires room { self.old.pending ≤ 64000 }
        ensures ok { IfOk result
            (λ a. ForSome self.old.node (MakesNode V.accepts others.now time payload.now a self.new.node)) }
        ensures memory { OnErr result (self.new ≡ self.old) }
        ensures free { IsErrOf result StoreError.Memory → ForSome self.old.node (IsDrafted others.now payload.now) }
        ensures frame { StageFrame 1 result self.old self.new }
    {
        let Some(node) = &mut self.node else {
            return Err(StoreError::Closed);
        };
        histories_are_short();
        stored_changes_replay::<V>();
        node.is_node();
        let answer = node.make(others, time, payload)?;
        if let MakeAnswer::Made(place) = answer {
            add_made(&mut self.tail, node, place);
        }
        Ok(answer)
    }

    /// Publishes what a share decides in the node's first `len` rows, as `Node::remark` does, and stages it where some were
    /// marked. Answers how many.
    pub fn stage_remark(&mut self, len: usize, share: Share) -> Result<u32, StoreError>
        requires len { ForSome self.old.node (λ v. len ≤ length (node_rows v)) }
        requires room { self.old.pending ≤ 64000 }
        ensures answer { IfOk result (λ count. ForSome self.old.node (λ v. count ≡ publish_answer v len share)) }
        ensures ok { OnOk result (ForSome self.old.node (λ v. self.new.node ≡ Some (after_marks v len share))) }
        ensures memory { OnErr result (self.new ≡ self.old) }
        ensures frame { StageFrame 1 result self.old self.new }
    {
        let Some(node) = &mut self.node else {
            return Err(StoreError::Closed);
        };
        stored_changes_replay::<V>();
        node.is_node();
        share.k();
        share.of();
        let count = node.remark(len, share)?;
        if count != 0 {
            let body = marked_bytes(len as u32, share);
            self.tail.add(MARKED, &body);
        }
        Ok(count)
    }

    /// Stores all that is staged at once: it waits twice for the disk, however many changes they are, and not at all where there
    /// are none. The file is the one that was started when the journal was opened.
    pub fn commit<D: Disk>(&mut self, disk: &mut D) -> Result<(), StoreError>
        requires started { D.At disk.old self.old.name }
        requires written { StoresWritten V.accepts (D.file disk.old) self.old }
        ensures ok { OnOk result (self.new.node ≡ self.old.node) }
        ensures never { IsErrOf result StoreError.Memory → ⊥ }
        // A stop meanwhile, and one after a fault, leaves what was written or that with all that is staged, and nothing between.
        ensures stops { StopsKeepStaged V.accepts (D.file disk.old) (D.file disk.new) self.old }
        ensures frame { StoreFrame V.accepts D.Disk result self.old self.new disk.old disk.new }
    {
        let Some(node) = &self.node else {
            return Err(StoreError::Closed);
        };
        node.is_node();
        let changes = node.changes();
        match self.tail.store::<V, D>(disk) {
            Ok(()) => {
                self.written = changes;
                Ok(())
            }
            Err(Failed) => {
                self.node = None;
                Err(StoreError::Disk)
            }
        }
    }
}

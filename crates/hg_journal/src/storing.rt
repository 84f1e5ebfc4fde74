ghost use Rattle.std.specs.Prelude.{◌≡◌, ◌≤◌, None, Some, IfOk, IsErrOf, OnOk, length};
ghost use Rattle.std.specs.Option.{ForSome};
ghost use Rattle.hg_model.specs.Links.{most_others};
ghost use Rattle.hg_life.specs.Calls.{publish_answer, put_answer};
ghost use Rattle.hg_life.specs.NodeView.{node_rows};
ghost use Rattle.hg_node.specs.Puts.{WouldAccept, after_put};
ghost use Rattle.hg_node.specs.Restore.{WouldRestore, after_restore, restore_answer};

use crate::errors::StoreError;
use crate::stored::Stored;
use hg_io::Disk;
use hg_life::{MakeAnswer, PutAnswer};
use hg_model::{Name, Share};
use hg_sign::Signer;

impl<V: Signer + Drop> Stored<V> {
    ghost use Rattle.hg_journal.specs.Staging.{StoreFrame};
    ghost use Rattle.hg_journal.specs.Stored.{IsDrafted, MakesNode, StopsKeepMaking, StopsKeepMarks, StopsKeepPut, StopsKeepRestored, StoresNode, after_marks};

    /// Puts the bytes of an event, as `Node::put` does, and stores the event where it is accepted. The file is the one that was
    /// started when the journal was opened.
    pub fn put<D: Disk>(&mut self, disk: &mut D, bytes: &[u8]) -> Result<PutAnswer, StoreError>
        requires started { D.At disk.old self.old.name }
        requires stored { StoresNode V.accepts (D.file disk.old) self.old }
        ensures answer { IfOk result (λ answer. ForSome self.old.node (λ v. answer ≡ put_answer V.accepts v bytes.now)) }
        ensures ok { OnOk result (ForSome self.old.node (λ v. self.new.node ≡ Some (after_put V.accepts v bytes.now))) }
        ensures memory { IsErrOf result StoreError.Memory → self.new ≡ self.old }
        ensures free { IsErrOf result StoreError.Memory → ForSome self.old.node (λ v. WouldAccept V.accepts v bytes.now) }
        // A stop meanwhile, and one after a fault, leaves it as it was or with the event.
        ensures stops { StopsKeepPut V.accepts bytes.now (D.file disk.old) (D.file disk.new) self.old.node }
        ensures frame { StoreFrame V.accepts D.Disk result self.old self.new disk.old disk.new }
    {
        let answer = self.stage_put(bytes)?;
        self.commit(disk)?;
        Ok(answer)
    }

    /// Puts the bytes of an event that the node made before, and that comes back to it, as `Node::restore` does, and stores it as
    /// one that was made where it is accepted.
    pub fn restore<D: Disk>(&mut self, disk: &mut D, bytes: &[u8]) -> Result<PutAnswer, StoreError>
        requires started { D.At disk.old self.old.name }
        requires stored { StoresNode V.accepts (D.file disk.old) self.old }
        ensures answer { IfOk result (λ answer. ForSome self.old.node (λ v. answer ≡ restore_answer V.accepts v bytes.now)) }
        ensures ok { OnOk result (ForSome self.old.node (λ v. self.new.node ≡ Some (after_restore V.accepts v bytes.now))) }
        ensures memory { IsErrOf result StoreError.Memory → self.new ≡ self.old }
        ensures free { IsErrOf result StoreError.Memory → ForSome self.old.node (λ v. WouldRestore V.accepts v bytes.now) }
        // A stop meanwhile, and one after a fault, leaves it as it was or with the event.
        ensures stops { StopsKeepRestored V.accepts bytes.now (D.file disk.old) (D.file disk.new) self.old.node }
        ensures frame { StoreFrame V.accepts D.Disk result self.old self.new disk.old disk.new }
    {
        let answer = self.stage_restore(bytes)?;
        self.commit(disk)?;
        Ok(answer)
    }

    /// Makes an event of the node's member, as `Node::make` does, and stores it.
    pub fn make<D: Disk>(
        &mut self,
        disk: &mut D,
        others: &[Name],
        time: u64,
        payload: &[u8],
    ) -> Result<MakeAnswer, StoreError>
        requires few { length others.now ≤ most_others }
        requires started { D.At disk.old self.old.name }
        requires stored { StoresNode V.accepts (D.file disk.old) self.old }
        ensures ok { IfOk result
            (λ a. ForSome self.old.node (MakesNode V.accepts others.now time payload.now a self.new.node)) }
        ensures memory { IsErrOf result StoreError.Memory → self.new ≡ self.old }
        ensures free { IsErrOf result StoreError.Memory → ForSome self.old.node (IsDrafted others.now payload.now) }
        // A stop meanwhile, and one after a fault, leaves it as it was or with an event that was made so.
        ensures stops { StopsKeepMaking V.accepts others.now time payload.now
            (D.file disk.old) (D.file disk.new) self.old self.new }
        ensures frame { StoreFrame V.accepts D.Disk result self.old self.new disk.old disk.new }
    {
        let answer = self.stage_make(others, time, payload)?;
        self.commit(disk)?;
        Ok(answer)
    }

    /// Publishes what a share decides in the node's first `len` rows, as `Node::remark` does, and stores it where some were
    /// marked. Answers how many.
    pub fn remark<D: Disk>(
        &mut self,
        disk: &mut D,
        len: usize,
        share: Share,
    ) -> Result<u32, StoreError>
        requires len { ForSome self.old.node (λ v. len ≤ length (node_rows v)) }
        requires started { D.At disk.old self.old.name }
        requires stored { StoresNode V.accepts (D.file disk.old) self.old }
        ensures answer { IfOk result (λ count. ForSome self.old.node (λ v. count ≡ publish_answer v len share)) }
        ensures ok { OnOk result (ForSome self.old.node (λ v. self.new.node ≡ Some (after_marks v len share))) }
        ensures memory { IsErrOf result StoreError.Memory → self.new ≡ self.old }
        // A stop meanwhile, and one after a fault, leaves it as it was or with these marks.
        ensures stops { StopsKeepMarks V.accepts len share (D.file disk.old) (D.file disk.new) self.old.node }
        ensures frame { StoreFrame V.accepts D.Disk result self.old self.new disk.old disk.new }
    {
        let count = self.stage_remark(len, share)?;
        self.commit(disk)?;
        Ok(count)
    }
}

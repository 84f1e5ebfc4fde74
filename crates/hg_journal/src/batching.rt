ghost use Rattle.std.specs.Prelude.{◌≡◌, ◌⊎◌, ◌*◌, ◌+◌, ◌<◌, ◌≤◌, ◌↔◌, None, IfOk, IsErrOf, OnErr, OnOk, length, vec_capacity};
ghost use Rattle.std.specs.Option.{ForSome};

use crate::errors::StoreError;
use crate::stored::Stored;
use hg_io::Disk;
use hg_life::PutAnswer;
use hg_model::Bytes;
use hg_sign::Signer;

impl<V: Signer + Drop> Stored<V> {
    ghost use Rattle.hg_journal.specs.Staging.{NextIsAccepted, PutsFront, StageFrame, StopsKeepPuts, StoreFrame};
    ghost use Rattle.hg_journal.specs.Stored.{StoresNode};

    /// Puts first ones of these events, as `Node::put` does, one after the other, until `is_full` holds or memory runs out, and
    /// stages those that are accepted. Answers what came of each of them.
    pub fn stage_puts(
        &mut self,
        events: &[Bytes],
        answers: &mut Vec<PutAnswer>,
    ) -> Result<(), StoreError>
        requires room { length events.now ≤ vec_capacity answers.old }
        // The answers are those to as many first events, and the node is the one after these.
        ensures puts { PutsFront V.accepts self.old.node events.now answers.new.items self.new.node }
        // They are to all of them, or no room is left.
        ensures many { OnOk result ((length answers.new.items ≡ length events.now) ⊎ (64000 < self.new.pending)) }
        ensures free { IsErrOf result StoreError.Memory
            → ForSome self.new.node (NextIsAccepted V.accepts events.now answers.new.items) }
        ensures room { vec_capacity answers.old ≤ vec_capacity answers.new }
        ensures frame { StageFrame (length answers.new.items) result self.old self.new }
    {
        answers.clear();
        if self.node().is_none() {
            return Err(StoreError::Closed);
        }
        for event in events {
            if self.is_full() {
                return Ok(());
            }
            let answer = self.stage_put(event.as_slice())?;
            answers.push(answer).unwrap();
        }
        Ok(())
    }

    /// Puts first ones of these events, as `put` does, one after the other, and stores those that are accepted at once: it waits
    /// twice for the disk, however many they are, and not at all where none is accepted. Answers what came of each of them:
    /// of all, or of as many as 64,000 bytes of records have room for, or of those before which memory ran out.
    pub fn put_batch<D: Disk>(
        &mut self,
        disk: &mut D,
        events: &[Bytes],
        answers: &mut Vec<PutAnswer>,
    ) -> Result<(), StoreError>
        requires started { D.At disk.old self.old.name }
        requires stored { StoresNode V.accepts (D.file disk.old) self.old }
        requires room { length events.now ≤ vec_capacity answers.old }
        // The answers are those to as many first events, and the node is the one after these; unless the disk failed.
        ensures puts { (IsErrOf result StoreError.Disk → ⊥)
            → PutsFront V.accepts self.old.node events.now answers.new.items self.new.node }
        // They are to all of them, or to 48 at least.
        ensures many { OnOk result ((length answers.new.items ≡ length events.now) ⊎ (47 < length answers.new.items)) }
        ensures free { IsErrOf result StoreError.Memory
            → ForSome self.new.node (NextIsAccepted V.accepts events.now answers.new.items) }
        ensures room { vec_capacity answers.old ≤ vec_capacity answers.new }
        // A stop meanwhile, and one after a fault, leaves it as it was or with all that were accepted.
        ensures stops { StopsKeepPuts V.accepts events.now (D.file disk.old) (D.file disk.new) self.old.node self.new.node }
        ensures frame { StoreFrame V.accepts D.Disk result self.old self.new disk.old disk.new }
    {
        let staged = self.stage_puts(events, answers);
        self.commit(disk)?;
        staged
    }
}

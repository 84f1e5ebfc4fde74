ghost use Rattle.std.specs.Prelude.{◌≡◌, ◌≤◌, ◌∷◌, [], ℕ, List, IfOk, IsErrOf, OnOk, length, take};
ghost use Rattle.std.specs.Option.{ForSome};
ghost use Rattle.hg_io.specs.FileView.{Stays};
ghost use Rattle.hg_node.specs.Replay.{new_node};
ghost use Rattle.hg_journal.specs.Faults.{IsFaultCounted};
ghost use Rattle.hg_journal.specs.Journal.{FileEndsAt, head_of};
ghost use Rattle.hg_journal.specs.Opening.{Finds, NeedsMemoryIn};
ghost use Rattle.hg_journal.specs.Stored.{IsNear};

use crate::again::come_again;
use crate::ahead::Ahead;
use crate::errors::OpenError;
use hg_io::Disk;
use hg_node::{Node, histories_are_short};
use hg_sign::Signer;

/// The file's records come again to a node without changes, one by one through the buffer. Answers the place of the closed
/// gate that ends them.
pub(crate) fn replay<V: Signer, D: Disk>(
    disk: &mut D,
    name: &str,
    node: &mut Node<V>,
    buffer: &mut [u8],
) -> Result<u64, OpenError>
    requires started { D.At disk.old name.now }
    requires room { 65535 ≤ length buffer.old }
    requires first { node.old ≡ new_node node.old.start }
    requires head { ForSome (D.file disk.old).reads (λ bytes. take 9 bytes ≡ 1 ∷ head_of node.old.start) }
    ensures start { OnOk result (node.new.start ≡ node.old.start) }
    ensures near { IfOk result (λ gate. IsNear gate node.new) }
    ensures place { IfOk result (FileEndsAt V.accepts node.old.start node.new (D.file disk.old)) }
    ensures finds { ForSome (D.file disk.old).reads (Finds V.accepts node.old.start node.new result) }
    ensures free { IsErrOf result OpenError.Memory → ForSome (D.file disk.old).reads (NeedsMemoryIn V.accepts node.old.start) }
    ensures stays { Stays (D.file disk.old) (D.file disk.new) }
    ensures started { D.At disk.new name.now }
    ensures cause { IsFaultCounted result OpenError.Disk (D.faults disk.old) (D.faults disk.new) name.now }
    ensures counts { (other : List ℕ) → D.faults disk.old other ≤ D.faults disk.new other }
{
    let mut at = 9;
    'records: loop {
        histories_are_short();
        node.is_node();
        match Ahead::read(disk, name, at, buffer)? {
            Ahead::Closed => return Ok(at),
            Ahead::Nothing => return Err(OpenError::Broken(at)),
            Ahead::Record(kind, size) => {
                let size = usize::from(size);
                if !come_again(node, kind, &buffer[..size])? {
                    return Err(OpenError::Broken(at));
                }
                at += 4 + size as u64;
            }
        }
    }
}

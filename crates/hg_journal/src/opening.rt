ghost use Rattle.std.specs.Prelude.{◌≡◌, ◌<◌, ◌≤◌, ◌++◌, ℕ, List, IfErr, IfOk, IsErrOf, IsSome, OnOk, codes, is_some, length};
ghost use Rattle.std.specs.Int.{to_be_bytes, w16};
ghost use Rattle.std.specs.Option.{ForSome};
ghost use Rattle.hg_io.specs.FileView.{IsSynced};
ghost use Rattle.hg_life.specs.NodeView.{start_of};
ghost use Rattle.hg_node.specs.Replay.{new_node};
ghost use Rattle.hg_journal.specs.Faults.{IsFaultCounted, DiskFrame};
ghost use Rattle.hg_journal.specs.Journal.{head_of};
ghost use Rattle.hg_journal.specs.Opening.{Finds, LeavesJournal, NeedsMemoryIn, Opens, StaysUnlessDisk, WritesOnlyAnew};
ghost use Rattle.hg_journal.specs.Stored.{IsNear, IsStored, StoresNode};

use crate::errors::OpenError;
use crate::filling::fill_from;
use crate::head::{is_anew, is_begun, is_ours};
use crate::making::make_anew;
use crate::replaying::replay;
use crate::stored::Stored;
use crate::tail::{Tail, room_for};
use hg_io::Disk;
use hg_life::Members;
use hg_model::Member;
use hg_node::Node;
use hg_sign::Signer;
use std::alloc::Global;

/// One byte more than a journal without records has.
const FRONT: usize = 11;

/// The head of the journal of this member among so many.
pub(crate) fn head_bytes(count: u16, own: Member) -> [u8; 8]
    ensures { result ≡ codes "HGJ1" ++ (to_be_bytes w16 count ++ to_be_bytes w16 own) }
{
    let [a, b] = count.to_be_bytes();
    let [c, d] = own.to_be_bytes();
    [b'H', b'G', b'J', b'1', a, b, c, d]
}

/// Reads a synced file into a node without changes, and makes it anew where no journal was made of it yet. Answers the place
/// of the closed gate.
pub(crate) fn gate_of<V: Signer, D: Disk>(
    disk: &mut D,
    name: &str,
    head: &[u8; 8],
    node: &mut Node<V>,
    buffer: &mut [u8],
) -> Result<u64, OpenError>
    requires started { D.At disk.old name.now }
    requires synced { IsSynced (D.file disk.old) }
    requires room { 65535 ≤ length buffer.old }
    requires first { node.old ≡ new_node node.old.start }
    requires head { head.now ≡ head_of node.old.start }
    ensures start { OnOk result (node.new.start ≡ node.old.start) }
    ensures near { IfOk result (λ gate. IsNear gate node.new) }
    ensures stored { IfOk result (λ gate. IsStored V.accepts (D.file disk.new) node.new gate) }
    ensures finds { ForSome (D.file disk.old).reads (Finds V.accepts node.old.start node.new result) }
    ensures free { IsErrOf result OpenError.Memory → ForSome (D.file disk.old).reads (NeedsMemoryIn V.accepts node.old.start) }
    ensures leaves { LeavesJournal V.accepts node.old.start (D.file disk.old) (D.file disk.new) }
    ensures untouched { WritesOnlyAnew head.now (D.file disk.old) (D.file disk.new) }
    ensures refused { IfErr result (λ e. StaysUnlessDisk e (D.file disk.old) (D.file disk.new)) }
    ensures frame { DiskFrame D.Disk name.now disk.old disk.new }
    ensures cause { IsFaultCounted result OpenError.Disk (D.faults disk.old) (D.faults disk.new) name.now }
{
    let mut front = [0; FRONT];
    let count = fill_from(disk, name, 0, &mut front)?;
    let front = &front[..count];
    if is_anew(head, front) {
        make_anew(disk, name, head, is_begun(front))?;
        return Ok(9);
    }
    if !is_ours(head, front) {
        return Err(OpenError::Foreign);
    }
    replay(disk, name, node, buffer)
}

// Opens a synced file that is started.
fn open_synced<V: Signer + Drop, D: Disk>(
    alloc: Global,
    disk: &mut D,
    name: &str,
    members: &Members,
    own: Member,
    keys: V,
) -> Result<Stored<V>, OpenError>
    requires own { own < length members.now.entries }
    requires started { D.At disk.old name.now }
    requires synced { IsSynced (D.file disk.old) }
    ensures open { IfOk result (λ s. IsSome s.node) }
    ensures begins { IfOk result (λ s. ForSome s.node (λ v. v.start ≡ start_of members.now own keys)) }
    ensures name { IfOk result (λ s. s.name ≡ name.now) }
    ensures stored { IfOk result (StoresNode V.accepts (D.file disk.new)) }
    ensures opens { ForSome (D.file disk.old).reads (Opens V.accepts (start_of members.now own keys) (λ s. s.node) result) }
    ensures leaves { LeavesJournal V.accepts (start_of members.now own keys) (D.file disk.old) (D.file disk.new) }
    ensures untouched { WritesOnlyAnew (head_of (start_of members.now own keys)) (D.file disk.old) (D.file disk.new) }
    ensures refused { IfErr result (λ e. StaysUnlessDisk e (D.file disk.old) (D.file disk.new)) }
    ensures frame { DiskFrame D.Disk name.now disk.old disk.new }
    ensures cause { IsFaultCounted result OpenError.Disk (D.faults disk.old) (D.faults disk.new) name.now }
{
    let head = head_bytes(members.count() as u16, own);
    let mut node = Node::new(alloc, members, own, keys)?;
    let (copy, mut buffer) = room_for(alloc, name)?;
    let gate = gate_of(disk, name, &head, &mut node, buffer.as_mut_slice())?;
    Ok(Stored::new(node, Tail::new(copy, gate, buffer)))
}

impl<V: Signer + Drop> Stored<V> {
    ghost use Rattle.hg_journal.specs.Opening.{StartsOrFails, SyncsOrFails};

    /// Starts the file of this name, waits until it is kept, and opens the journal in it of the member `own`, or makes an
    /// empty one where none was made of it yet; else it writes nothing. The node is the one that comes again from the file's
    /// records. All memory but that of the node's later rows is taken before anything is written.
    pub fn open<D: Disk>(
        alloc: Global,
        disk: &mut D,
        name: &str,
        members: &Members,
        own: Member,
        keys: V,
    ) -> Result<Stored<V>, OpenError>
        requires { own < length members.now.entries }
        ensures open { IfOk result (λ s. IsSome s.node) }
        ensures begins { IfOk result (λ s. ForSome s.node (λ v. v.start ≡ start_of members.now own keys)) }
        ensures name { IfOk result (λ s. s.name ≡ name.now) }
        // A stop leaves the whole journal.
        ensures stored { IfOk result (StoresNode V.accepts (D.file disk.new)) }
        // The disk tells the file just where it did.
        ensures shown { is_some (D.file disk.new).reads ≡ is_some (D.file disk.old).reads }
        // The node is that of the file's journal; the file is foreign, or broken at the place, just where the answer says so.
        ensures opens { ForSome (D.file disk.old).reads (Opens V.accepts (start_of members.now own keys) (λ s. s.node) result) }
        // From the first sync on a stop leaves a file with the same journal; or the disk failed before that was done.
        ensures synced { SyncsOrFails V.accepts (start_of members.now own keys) (D.file disk.old) (D.file disk.new) result }
        // It writes only to a file that it makes anew.
        ensures untouched { WritesOnlyAnew (head_of (start_of members.now own keys)) (D.file disk.old) (D.file disk.new) }
        // A file that it finds foreign or broken stays as it was, whether or not the disk tells it; so does one where memory ran
        // out.
        ensures refused { IfErr result (λ e. StaysUnlessDisk e (D.file disk.old) (D.file disk.new)) }
        ensures started { IfOk result (λ s. D.At disk.new s.name) }
        // Whatever is answered, the file of this name is the one that is started then; or it could not be, and the one that was
        // started before still is.
        ensures begun { StartsOrFails (D.At disk.old) (D.At disk.new) name.now (D.file disk.old) (D.file disk.new) result }
        ensures cause { IsFaultCounted result OpenError.Disk (D.faults disk.old) (D.faults disk.new) name.now }
        ensures counts { (other : List ℕ) → D.faults disk.old other ≤ D.faults disk.new other }
    {
        disk.start(name)?;
        disk.sync(name)?;
        open_synced(alloc, disk, name, members, own, keys)
    }
}

ghost use Rattle.std.specs.Prelude.{◌≡◌};
ghost use Rattle.hg_top.specs.Keeps.{open_status};
ghost use Rattle.hg_top.specs.Printing.{status_code};
ghost use Rattle.hg_top.specs.Work.{limit_of, too_long};
ghost use Rattle.hg_top.specs.Writing as writing;

use hg_certify::Why;
use hg_exchange::MessageFault;
use hg_io::Failed;
use hg_journal::{OpenError, StoreError};
use hg_keep::{EventFault, open_error_of};
use hg_members::MemberFault;
use hg_model::Memory;
use hg_script::ScriptFault;
use hg_wire::Delivery;

/// One of the files that are read.
#[derive(Clone, Copy, Debug, PartialEq, Eq)]
pub enum File {
    Members,
    Script,
    Events,
    Proof,
    Message,
}

impl File {
    /// The greatest number of bytes that it may have.
    pub(crate) fn limit(self) -> usize
        ensures { result ≡ limit_of self }
    {
        match self {
            File::Members => 1_048_576,
            File::Script => 16_777_216,
            File::Events => 16_777_216,
            File::Proof => 2_147_483_648,
            File::Message => 1_410_334_778,
        }
    }

    /// What a call comes to where it has more.
    pub(crate) fn too_long(self) -> Status
        ensures { result ≡ too_long self }
    {
        match self {
            File::Members => Status::Members(Refusal::TooLong),
            File::Script => Status::Script(Refusal::TooLong),
            File::Events => Status::Events(Refusal::TooLong),
            File::Proof => Status::Proof(Refusal::TooLong),
            File::Message => Status::Wire(Refusal::TooLong),
        }
    }
}

/// What is wrong with a file.
#[derive(Clone, Copy, Debug, PartialEq, Eq)]
pub enum Refusal<F> {
    /// It has more bytes than such a file may have.
    TooLong,
    /// Its first fault.
    Fault(F),
}

/// What is wrong with the file of a journal.
#[derive(Clone, Copy, Debug, PartialEq, Eq)]
pub enum JournalFault {
    /// It is no journal, or that of another member or of another number of members.
    Foreign,
    /// At this place, in bytes from the beginning of the file, the journal ends amiss.
    Broken(u64),
}

/// Why the words of a command line could not be read.
#[derive(Clone, Copy, Debug, PartialEq, Eq)]
pub enum NoWords {
    /// One of them is not UTF-8.
    NotText,
    /// Memory ran out.
    Memory,
}

/// What a call of the program came to.
#[derive(Clone, Copy, Debug, PartialEq, Eq)]
pub enum Status {
    /// The whole report was written.
    Done,
    /// The shelf failed at this file.
    ReadFault(File),
    /// The words are not accepted.
    Usage,
    /// The member file has more than 1,048,576 bytes or breaks a rule.
    Members(Refusal<MemberFault>),
    /// No member of the member file has the name whose node is wanted, or the one that has it has no node.
    Own,
    /// The script has more than 16,777,216 bytes, or a line of it is refused.
    Script(Refusal<ScriptFault>),
    /// The file of events has more than 16,777,216 bytes, or is not events end to end.
    Events(Refusal<EventFault>),
    /// Standard output failed: a front of the report was written.
    WriteFault,
    /// Memory ran out before the first write to standard output.
    Memory,
    /// The disk failed at the journal.
    Disk,
    /// The file of the journal is refused, and stays as it was.
    Journal(JournalFault),
    /// The proof has more than 2,147,483,648 bytes, or it shows nothing to the members.
    Proof(Refusal<Why>),
    /// The message file has more than 1,410,334,778 bytes, as no message has, or is not one message from its first byte to
    /// its last.
    Wire(Refusal<MessageFault>),
}

impl Status {
    /// The exit status of the program, 0 to 10.
    pub fn code(self) -> u8
        ensures { result ≡ status_code self }
    {
        match self {
            Status::Done => 0,
            Status::ReadFault(_) => 1,
            Status::Usage => 2,
            Status::Members(_) | Status::Own => 3,
            Status::Script(_) | Status::Events(_) => 4,
            Status::WriteFault => 5,
            Status::Memory => 6,
            Status::Disk => 7,
            Status::Journal(_) => 8,
            Status::Proof(_) => 9,
            Status::Wire(_) => 10,
        }
    }
}

/// What a call comes to by what came of writing its message.
pub(crate) fn delivered(delivery: Delivery) -> Status
    ensures { result ≡ writing.delivered delivery }
{
    match delivery {
        Delivery::Sent(_) => Status::Done,
        Delivery::Failed => Status::WriteFault,
    }
}

/// What a call comes to by what came of writing its text.
pub fn status_of(written: Result<(), Failed>) -> Status
    ensures { result ≡ writing.status_of written }
{
    match written {
        Ok(()) => Status::Done,
        Err(Failed) => Status::WriteFault,
    }
}

/// What a call comes to by why a journal was not opened.
pub(crate) fn open_status(error: OpenError) -> Status
    ensures { result ≡ open_status error }
{
    match error {
        OpenError::Disk => Status::Disk,
        OpenError::Memory => Status::Memory,
        OpenError::Foreign => Status::Journal(JournalFault::Foreign),
        OpenError::Broken(at) => Status::Journal(JournalFault::Broken(at)),
    }
}

impl From<Memory> for Status {
    ghost use Rattle.hg_top.specs.declared.status.Status.TheVariants as variants;

    ghost from_gives = { λ _ status. status ≡ variants.Memory };

    fn from(_: Memory) -> Status {
        Status::Memory
    }
}

impl From<OpenError> for Status {
    ghost from_gives = { λ error status. status ≡ open_status error };

    fn from(error: OpenError) -> Status {
        open_status(error)
    }
}

impl From<StoreError> for Status {
    ghost use Rattle.hg_keep.specs.Stores.{open_error_of};

    ghost from_gives = { λ error status. status ≡ open_status (open_error_of error) };

    fn from(error: StoreError) -> Status {
        open_status(open_error_of(error))
    }
}

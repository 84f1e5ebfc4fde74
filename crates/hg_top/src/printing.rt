ghost use Rattle.std.specs.Prelude.{◌≡◌, ◌++◌};
ghost use Rattle.hg_io.specs.Printing.{Prints};
ghost use Rattle.hg_members.specs.Text.{member_fault_text};
ghost use Rattle.hg_outcome.specs.Report.{byte_fault_text};
ghost use Rattle.hg_pieces.specs.Pieces.{piece_text};
ghost use Rattle.hg_top.specs.Printing.{IsPrintedOn, events_line, journal_line, members_line, proof_line, script_line, status_line, status_without, wire_line, wire_pair};

use crate::status::{File, JournalFault, NoWords, Refusal, Status};
use hg_certify::{Why, why_pieces};
use hg_exchange::MessageFault;
use hg_io::{Failed, Sink, write_all};
use hg_keep::EventFault;
use hg_life::ByteFault;
use hg_members::MemberFault;
use hg_report::{Piece, print_pieces};
use hg_script::ScriptFault;
use hg_wire::WireFault;

/// A fault of the member file: its word, and its number if it has one.
fn member_fault_parts(fault: MemberFault) -> (&'static [u8], Piece<'static>)
    ensures { result.0.now ++ piece_text result.1 ≡ member_fault_text fault }
{
    match fault {
        MemberFault::NotToml => (b"not-toml", Piece::Bytes(b"")),
        MemberFault::BadCoin(coin) => (b"coin ", Piece::Signed(coin)),
        MemberFault::Count(count) => (b"count ", Piece::Number(count as u64)),
        MemberFault::BadName(i) => (b"name ", Piece::Number(i as u64)),
        MemberFault::DoubleName(i) => (b"double-name ", Piece::Number(i as u64)),
        MemberFault::BadSecret(i) => (b"secret ", Piece::Number(i as u64)),
        MemberFault::BadBalance(i) => (b"balance ", Piece::Number(i as u64)),
        MemberFault::BadNode(i) => (b"node ", Piece::Number(i as u64)),
        MemberFault::BadStake(i) => (b"stake ", Piece::Number(i as u64)),
        MemberFault::SumTooLarge => (b"sum", Piece::Bytes(b"")),
    }
}

/// What is wrong with an event's bytes: its word, and its number if it has one.
fn byte_fault_parts(fault: ByteFault) -> (&'static [u8], Piece<'static>)
    ensures { result.0.now ++ piece_text result.1 ≡ byte_fault_text fault }
{
    match fault {
        ByteFault::Short(at) => (b"short ", Piece::Number(at as u64)),
        ByteFault::BadMagic => (b"bad-magic", Piece::Bytes(b"")),
        ByteFault::BadKind(kind) => (b"bad-kind ", Piece::Number(u64::from(kind))),
        ByteFault::BadLength(length) => (b"bad-length ", Piece::Number(u64::from(length))),
        ByteFault::Trailing(count) => (b"trailing ", Piece::Number(count as u64)),
    }
}

/// Prints a text as it is.
pub(crate) fn print_text<E: Sink>(err: &mut E, text: &[u8]) -> Result<(), Failed>
    ensures { Prints E.Sink err.old err.new text.now result }
{
    write_all(err, text)
}

/// Prints a fault of the member file.
fn print_member_fault<E: Sink>(err: &mut E, fault: MemberFault) -> Result<(), Failed>
    ensures { Prints E.Sink err.old err.new (members_line (Refusal.Fault fault)) result }
{
    let (word, number) = member_fault_parts(fault);
    print_pieces(
        err,
        &[
            Piece::Bytes(b"hashgraph: members: "),
            Piece::Bytes(word),
            number,
            Piece::Bytes(b"\n"),
        ],
    )
}

/// Prints why a line of the script is refused.
fn print_script_fault<E: Sink>(err: &mut E, fault: ScriptFault) -> Result<(), Failed>
    ensures { Prints E.Sink err.old err.new (script_line (Refusal.Fault fault)) result }
{
    let why = fault.why.text();
    print_pieces(
        err,
        &[
            Piece::Bytes(b"hashgraph: script line "),
            Piece::Number(fault.line),
            Piece::Bytes(b": "),
            Piece::Bytes(why),
            Piece::Bytes(b"\n"),
        ],
    )
}

/// Prints where a file of events has none, and why.
fn print_event_fault<E: Sink>(err: &mut E, fault: EventFault) -> Result<(), Failed>
    ensures { Prints E.Sink err.old err.new (events_line (Refusal.Fault fault)) result }
{
    let (word, number) = byte_fault_parts(fault.fault);
    print_pieces(
        err,
        &[
            Piece::Bytes(b"hashgraph: event at "),
            Piece::Number(fault.at),
            Piece::Bytes(b": "),
            Piece::Bytes(word),
            number,
            Piece::Bytes(b"\n"),
        ],
    )
}

/// Prints what is wrong with a row of a message.
fn print_row_fault<E: Sink>(err: &mut E, place: usize, fault: ByteFault) -> Result<(), Failed>
    ensures { Prints E.Sink err.old err.new (wire_line (Refusal.Fault (MessageFault.Wire (WireFault.Row place fault)))) result }
{
    let (word, number) = byte_fault_parts(fault);
    print_pieces(
        err,
        &[
            Piece::Bytes(b"hashgraph: wire: row "),
            Piece::Number(place as u64),
            Piece::Bytes(b" "),
            Piece::Bytes(word),
            number,
            Piece::Bytes(b"\n"),
        ],
    )
}

/// Prints what is wrong with a message: this word and this number.
fn print_wire_fault<E: Sink>(err: &mut E, word: &[u8], number: u64) -> Result<(), Failed>
    ensures { Prints E.Sink err.old err.new (wire_pair word.now number) result }
{
    print_pieces(
        err,
        &[
            Piece::Bytes(b"hashgraph: wire: "),
            Piece::Bytes(word),
            Piece::Number(number),
            Piece::Bytes(b"\n"),
        ],
    )
}

/// Prints what is wrong with a field of a message.
fn print_field_fault<E: Sink>(err: &mut E, fault: WireFault) -> Result<(), Failed>
    ensures { Prints E.Sink err.old err.new (wire_line (Refusal.Fault (MessageFault.Wire fault))) result }
{
    match fault {
        WireFault::Magic(at) => print_wire_fault(err, b"magic ", at as u64),
        WireFault::Kind(kind) => print_wire_fault(err, b"kind ", u64::from(kind)),
        WireFault::Count(count) => print_wire_fault(err, b"count ", u64::from(count)),
        WireFault::Row(place, fault) => print_row_fault(err, place, fault),
        WireFault::Flag(flag) => print_wire_fault(err, b"flag ", u64::from(flag)),
    }
}

/// Prints what is wrong with a message file.
fn print_message_fault<E: Sink>(err: &mut E, fault: MessageFault) -> Result<(), Failed>
    ensures { Prints E.Sink err.old err.new (wire_line (Refusal.Fault fault)) result }
{
    match fault {
        MessageFault::Wire(fault) => print_field_fault(err, fault),
        MessageFault::Ended(at) => print_wire_fault(err, b"ended ", at as u64),
        MessageFault::Trailing(at) => print_wire_fault(err, b"trailing ", at as u64),
    }
}

/// Prints what is wrong with the file of a journal.
fn print_journal_fault<E: Sink>(err: &mut E, fault: JournalFault) -> Result<(), Failed>
    ensures { Prints E.Sink err.old err.new (journal_line fault) result }
{
    match fault {
        JournalFault::Foreign => print_text(err, b"hashgraph: journal: foreign\n"),
        JournalFault::Broken(at) => print_pieces(
            err,
            &[
                Piece::Bytes(b"hashgraph: journal: broken "),
                Piece::Number(at),
                Piece::Bytes(b"\n"),
            ],
        ),
    }
}

/// Prints why a proof shows nothing.
fn print_proof_fault<E: Sink>(err: &mut E, why: Why) -> Result<(), Failed>
    ensures { Prints E.Sink err.old err.new (proof_line (Refusal.Fault why)) result }
{
    let [word, number, blank, fault, detail] = why_pieces(&why);
    print_pieces(
        err,
        &[
            Piece::Bytes(b"hashgraph: proof: "),
            word,
            number,
            blank,
            fault,
            detail,
            Piece::Bytes(b"\n"),
        ],
    )
}

/// Prints which file could not be read.
fn print_read_fault<E: Sink>(err: &mut E, file: File) -> Result<(), Failed>
    ensures { Prints E.Sink err.old err.new (status_line (Status.ReadFault file)) result }
{
    match file {
        File::Members => print_text(err, b"hashgraph: cannot read the member file\n"),
        File::Script => print_text(err, b"hashgraph: cannot read the script\n"),
        File::Events => print_text(err, b"hashgraph: cannot read the event file\n"),
        File::Proof => print_text(err, b"hashgraph: cannot read the proof file\n"),
        File::Message => print_text(err, b"hashgraph: cannot read the message file\n"),
    }
}

/// Prints one line, or nothing where all went well.
fn print_status<E: Sink>(err: &mut E, status: Status) -> Result<(), Failed>
    ensures { Prints E.Sink err.old err.new (status_line status) result }
{
    match status {
        Status::Done => Ok(()),
        Status::ReadFault(file) => print_read_fault(err, file),
        Status::Usage => print_text(
            err,
            b"hashgraph: usage: run --members FILE --script FILE [--workers K] or make --members N --lines L --seed S [--workers K] or keep --members FILE --events FILE --own NAME --disk FILE [--time T] or prove --members FILE --script FILE --own NAME or check --members FILE --proof FILE or storm --members FILE --turns T --seed S [--room R] or ask --members FILE --script FILE --own NAME or serve --members FILE --script FILE --own NAME --have FILE or take --members FILE --script FILE --own NAME --rows FILE\n",
        ),
        Status::Members(Refusal::TooLong) => print_text(err, b"hashgraph: members: too-long\n"),
        Status::Members(Refusal::Fault(fault)) => print_member_fault(err, fault),
        Status::Own => print_text(err, b"hashgraph: members: own\n"),
        Status::Script(Refusal::TooLong) => print_text(err, b"hashgraph: script: too-long\n"),
        Status::Script(Refusal::Fault(fault)) => print_script_fault(err, fault),
        Status::Events(Refusal::TooLong) => print_text(err, b"hashgraph: events: too-long\n"),
        Status::Events(Refusal::Fault(fault)) => print_event_fault(err, fault),
        Status::WriteFault => print_text(err, b"hashgraph: cannot write\n"),
        Status::Memory => print_text(err, b"hashgraph: out of memory\n"),
        Status::Disk => print_text(err, b"hashgraph: disk\n"),
        Status::Journal(fault) => print_journal_fault(err, fault),
        Status::Proof(Refusal::TooLong) => print_text(err, b"hashgraph: proof: too-long\n"),
        Status::Proof(Refusal::Fault(why)) => print_proof_fault(err, why),
        Status::Wire(Refusal::TooLong) => print_text(err, b"hashgraph: wire: too-long\n"),
        Status::Wire(Refusal::Fault(fault)) => print_message_fault(err, fault),
    }
}

/// Prints what a run came to on standard error, whose faults change nothing.
pub fn report_status<E: Sink>(err: &mut E, status: Status)
    ensures { IsPrintedOn E.Sink err.old err.new (status_line status) }
{
    match print_status(err, status) {
        Ok(()) => (),
        Err(Failed) => (),
    }
}

/// What the program comes to where its words could not be read: what is wrong goes to `err`, in one line, and nothing
/// else is done.
pub fn without_words<E: Sink>(why: NoWords, err: &mut E) -> Status
    ensures status { result ≡ status_without why }
    ensures matches { IsPrintedOn E.Sink err.old err.new (status_line result) }
{
    let status = match why {
        NoWords::NotText => Status::Usage,
        NoWords::Memory => Status::Memory,
    };
    report_status(err, status);
    status
}

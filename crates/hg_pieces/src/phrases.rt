ghost use Rattle.std.specs.Prelude.{◌≡◌, ◌++◌};
ghost use Rattle.std.specs.Fmt.{decimal};
ghost use Rattle.hg_outcome.specs.Report.{byte_fault_text, fault_text, make_answer_text, make_fault_text, put_answer_text, sync_made_text};
ghost use Rattle.hg_pieces.specs.Phrases.{phrase_text};
ghost use Rattle.hg_pieces.specs.Pieces.{piece_text};

use crate::pieces::Piece;
use hg_life::{ByteFault, Fault, MakeAnswer, MakeFault, PutAnswer, SyncMade};

/// What is told of an answer: two texts, each of which may be empty, and then a piece.
#[derive(Clone, Copy)]
pub struct Phrase<'a> {
    pub first: &'a [u8],
    pub second: &'a [u8],
    pub detail: Piece<'a>,
}

/// What is wrong with an event's bytes: a word, and a number if there is one.
fn byte_fault_parts(fault: &ByteFault) -> (&'static [u8], Piece<'static>)
    ensures { result.0.now ++ piece_text result.1 ≡ byte_fault_text fault.now }
{
    match fault {
        ByteFault::Short(at) => (b"short ", Piece::Number(*at as u64)),
        ByteFault::BadMagic => (b"bad-magic", Piece::Bytes(b"")),
        ByteFault::BadKind(kind) => (b"bad-kind ", Piece::Number(u64::from(*kind))),
        ByteFault::BadLength(length) => (b"bad-length ", Piece::Number(u64::from(*length))),
        ByteFault::Trailing(count) => (b"trailing ", Piece::Number(*count as u64)),
    }
}

/// Why a node refuses an event: a word, and what is told of it.
pub fn fault_parts(fault: &Fault) -> (&[u8], Piece<'_>)
    ensures { result.0.now ++ piece_text result.1 ≡ fault_text fault.now }
{
    match fault {
        Fault::Bytes(fault) => byte_fault_parts(fault),
        Fault::Member(id) => (b"member ", Piece::Number(u64::from(*id))),
        Fault::Collision(place) => (b"collision ", Piece::Number(*place as u64)),
        Fault::Signature => (b"signature", Piece::Bytes(b"")),
        Fault::Impostor => (b"impostor", Piece::Bytes(b"")),
        Fault::MissingSelf(name) => (b"missing-self ", Piece::Name(name)),
        Fault::MissingOther(name) => (b"missing-other ", Piece::Name(name)),
        Fault::SelfCreator(place) => (b"self-creator ", Piece::Number(*place as u64)),
        Fault::OtherCreator(place) => (b"other-creator ", Piece::Number(*place as u64)),
        Fault::TooManyForkers(stake) => (b"too-many-forkers ", Piece::Number(*stake)),
        Fault::Full(limit) => (b"full ", Piece::Number(*limit as u64)),
    }
}

/// Why a node makes no event: a word, and what is told of it.
pub fn make_fault_parts(fault: &MakeFault) -> (&[u8], Piece<'_>)
    ensures { result.0.now ++ piece_text result.1 ≡ make_fault_text fault.now }
{
    match fault {
        MakeFault::HasFirst => (b"has-first", Piece::Bytes(b"")),
        MakeFault::NoFirst => (b"no-first", Piece::Bytes(b"")),
        MakeFault::MissingOther(name) => (b"missing-other ", Piece::Name(name)),
        MakeFault::OtherCreator(place) => (b"other-creator ", Piece::Number(*place as u64)),
        MakeFault::PayloadLong(length) => (b"payload-long ", Piece::Number(*length as u64)),
        MakeFault::Collision(place) => (b"collision ", Piece::Number(*place as u64)),
        MakeFault::Full(limit) => (b"full ", Piece::Number(*limit as u64)),
    }
}

/// A text, and the two parts of what is told behind it.
fn phrase_of<'a>(first: &'a [u8], parts: (&'a [u8], Piece<'a>)) -> Phrase<'a>
    ensures { phrase_text result ≡ first.entry.now ++ parts.entry.0.now ++ piece_text parts.entry.1 }
{
    Phrase {
        first,
        second: parts.0,
        detail: parts.1,
    }
}

/// A number alone.
pub fn number_phrase(number: u64) -> Phrase<'static>
    ensures { phrase_text result ≡ decimal number }
{
    phrase_of(b"", (b"", Piece::Number(number)))
}

/// What came of bytes that were put to a node.
pub fn put_answer_phrase(answer: &PutAnswer) -> Phrase<'_>
    ensures { phrase_text result ≡ put_answer_text answer.now }
{
    match answer {
        PutAnswer::Accepted(place) => phrase_of(b"", (b"accepted ", Piece::Number(*place as u64))),
        PutAnswer::Known(place) => phrase_of(b"", (b"known ", Piece::Number(*place as u64))),
        PutAnswer::Refused(fault) => phrase_of(b"refused ", fault_parts(fault)),
    }
}

/// What came of a node's making an event.
pub fn make_answer_phrase(answer: &MakeAnswer) -> Phrase<'_>
    ensures { phrase_text result ≡ make_answer_text answer.now }
{
    match answer {
        MakeAnswer::Made(place) => phrase_of(b"", (b"made ", Piece::Number(*place as u64))),
        MakeAnswer::Refused(fault) => phrase_of(b"refused ", make_fault_parts(fault)),
    }
}

/// What came of the event at the end of a sync.
pub fn sync_made_phrase(made: &SyncMade) -> Phrase<'_>
    ensures { phrase_text result ≡ sync_made_text made.now }
{
    match made {
        SyncMade::Row(place) => number_phrase(*place as u64),
        SyncMade::PeerBare => phrase_of(b"", (b"none peer-bare", Piece::Bytes(b""))),
        SyncMade::Fault(fault) => phrase_of(b"none ", make_fault_parts(fault)),
    }
}

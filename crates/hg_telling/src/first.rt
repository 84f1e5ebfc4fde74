ghost use Rattle.std.specs.Prelude.{◌≡◌, ◌++◌, length};
ghost use Rattle.hg_io.specs.Printing.{PutsOn};
ghost use Rattle.hg_life.specs.Members.{names_of};
ghost use Rattle.hg_outcome.specs.Report.{name_of_member, with_number};
ghost use Rattle.hg_pieces.specs.Pieces.{piece_text, pieces_text};
ghost use Rattle.hg_service.specs.Text as text;
ghost use Rattle.hg_telling.specs.Parts.{bad_head, beyond_head, counts_of, head_text, made_head, members_head, not_made_head, own_text, state_head};

use hg_io::{Failed, Page, Sink};
use hg_life::Members;
use hg_model::{Member, Name};
use hg_pieces::{Piece, make_fault_parts, write_pieces};
use hg_service::{Answer, LineFault, NotMade};

/// A member's name, nothing for a number that is no member's.
pub fn member_name(members: &Members, member: usize) -> &[u8]
    ensures { result.now ≡ name_of_member (names_of members.now) member }
{
    match members.entries().get(member) {
        Some(entry) => entry.name.as_slice(),
        None => &[],
    }
}

fn line_fault_text(fault: &LineFault) -> &'static [u8]
    ensures { result.now ≡ text.line_fault_text fault.now }
{
    match fault {
        LineFault::Long => b"long",
        LineFault::Name => b"name",
        LineFault::Digits => b"digits",
        LineFault::Script(why) => why.text(),
    }
}

/// Why no event was made: a word, and what is told of it.
fn not_made_parts(why: &NotMade) -> (&[u8], Piece<'_>)
    ensures { result.0.now ++ piece_text result.1 ≡ text.not_made_text why.now }
{
    let none = Piece::Bytes(b"");
    match why {
        NotMade::Impostor => (b"impostor", none),
        NotMade::PeerBare => (b"peer-bare", none),
        NotMade::Idle => (b"idle", none),
        NotMade::Fault(fault) => make_fault_parts(fault),
    }
}

fn write_bad<K: Sink>(page: &mut Page, sink: &mut K, fault: &LineFault) -> Result<(), Failed>
    ensures { PutsOn K.Sink sink.old sink.new page.old page.new (bad_head fault.now) result }
{
    write_pieces(
        page,
        sink,
        &[Piece::Bytes(b"bad "), Piece::Bytes(line_fault_text(fault))],
    )
}

fn write_not_made<K: Sink>(page: &mut Page, sink: &mut K, why: &NotMade) -> Result<(), Failed>
    ensures { PutsOn K.Sink sink.old sink.new page.old page.new (not_made_head why.now) result }
{
    let (word, detail) = not_made_parts(why);
    write_pieces(
        page,
        sink,
        &[Piece::Bytes(b"refused "), Piece::Bytes(word), detail],
    )
}

/// A word and a number.
fn write_word<K: Sink>(
    page: &mut Page,
    sink: &mut K,
    word: &[u8],
    number: u64,
) -> Result<(), Failed>
    ensures { PutsOn K.Sink sink.old sink.new page.old page.new (with_number word.now number) result }
{
    write_pieces(
        page,
        sink,
        &[
            Piece::Bytes(word),
            Piece::Bytes(b" "),
            Piece::Number(number),
        ],
    )
}

/// What came of events that were put.
fn write_put<K: Sink>(
    page: &mut Page,
    sink: &mut K,
    word: &[u8],
    before: u64,
    accepted: u64,
    known: u64,
) -> Result<(), Failed>
    ensures { PutsOn K.Sink sink.old sink.new page.old page.new (text.put_line word.now before accepted known) result }
{
    write_pieces(
        page,
        sink,
        &[
            Piece::Bytes(word),
            Piece::Bytes(b" "),
            Piece::Number(before),
            Piece::Bytes(b" "),
            Piece::Number(accepted),
            Piece::Bytes(b" "),
            Piece::Number(known),
        ],
    )
}

/// Whose node it is, the coin period and the digest.
fn write_members<K: Sink>(
    page: &mut Page,
    sink: &mut K,
    members: &Members,
    own: Member,
    digest: Name,
) -> Result<(), Failed>
    ensures { PutsOn K.Sink sink.old sink.new page.old page.new (members_head members.now own digest) result }
{
    write_pieces(
        page,
        sink,
        &[
            Piece::Bytes(b"members "),
            Piece::Bytes(member_name(members, usize::from(own))),
            Piece::Bytes(b" "),
            Piece::Number(u64::from(members.coin())),
            Piece::Bytes(b" "),
            Piece::Name(&digest),
        ],
    )
}

/// The place and the time of an event.
fn placed_pieces(own: &Option<(u64, u64)>) -> [Piece<'static>; 3]
    ensures text { pieces_text result ≡ text.placed_text own.now }
    ensures three { length result ≡ 3 }
{
    let none = Piece::Bytes(b"");
    match own {
        Some((place, time)) => [
            Piece::Number(*place),
            Piece::Bytes(b" "),
            Piece::Number(*time),
        ],
        None => [Piece::Bytes(b"- -"), none, none],
    }
}

fn yes_no(is: bool) -> &'static [u8]
    ensures { result.now ≡ text.yes_no is }
{
    if is { b"yes" } else { b"no" }
}

/// The counts of a node.
fn write_counts<K: Sink>(page: &mut Page, sink: &mut K, answer: &Answer) -> Result<(), Failed>
    ensures { PutsOn K.Sink sink.old sink.new page.old page.new (counts_of answer.now) result }
{
    match answer {
        Answer::State {
            events,
            forkers,
            greatest,
            closed,
            ordered,
            waiting,
            ..
        } => write_pieces(
            page,
            sink,
            &[
                Piece::Bytes(b"state events "),
                Piece::Number(*events),
                Piece::Bytes(b" forkers "),
                Piece::Number(u64::from(*forkers)),
                Piece::Bytes(b" round "),
                Piece::Number(u64::from(*greatest)),
                Piece::Bytes(b" closed "),
                Piece::Number(u64::from(*closed)),
                Piece::Bytes(b" ordered "),
                Piece::Number(*ordered),
                Piece::Bytes(b" waiting "),
                Piece::Number(*waiting),
            ],
        ),
        _ => Ok(()),
    }
}

/// The node's last own event, and what else stands before the names of strange members.
fn write_own<K: Sink>(
    page: &mut Page,
    sink: &mut K,
    own: &Option<(u64, u64)>,
    impostor: bool,
) -> Result<(), Failed>
    ensures { PutsOn K.Sink sink.old sink.new page.old page.new (own_text own.now impostor) result }
{
    let [place, blank, time] = placed_pieces(own);
    write_pieces(
        page,
        sink,
        &[
            Piece::Bytes(b" own "),
            place,
            blank,
            time,
            Piece::Bytes(b" impostor "),
            Piece::Bytes(yes_no(impostor)),
            Piece::Bytes(b" strange "),
        ],
    )
}

/// The counts, and what stands behind them.
fn write_state<K: Sink>(
    page: &mut Page,
    sink: &mut K,
    answer: &Answer,
    own: &Option<(u64, u64)>,
    impostor: bool,
) -> Result<(), Failed>
    ensures { PutsOn K.Sink sink.old sink.new page.old page.new (state_head answer.now own.now impostor) result }
{
    write_counts(page, sink, answer)?;
    write_own(page, sink, own, impostor)?;
    Ok(())
}

/// How many events are beyond the names, and how many there are in all.
fn write_beyond<K: Sink>(page: &mut Page, sink: &mut K, all: u64, rows: u64) -> Result<(), Failed>
    ensures { PutsOn K.Sink sink.old sink.new page.old page.new (beyond_head all rows) result }
{
    write_pieces(
        page,
        sink,
        &[
            Piece::Bytes(b"beyond "),
            Piece::Number(all),
            Piece::Bytes(b" "),
            Piece::Number(rows),
        ],
    )
}

/// The place of the event that was made.
fn write_made<K: Sink>(page: &mut Page, sink: &mut K, place: u64) -> Result<(), Failed>
    ensures { PutsOn K.Sink sink.old sink.new page.old page.new (made_head place) result }
{
    write_pieces(
        page,
        sink,
        &[
            Piece::Bytes(b"made "),
            Piece::Number(place),
            Piece::Bytes(b" "),
        ],
    )
}

/// The first line of an answer, without its count, up to what may be of any length.
pub fn write_head<K: Sink>(
    page: &mut Page,
    sink: &mut K,
    members: &Members,
    answer: &Answer,
) -> Result<(), Failed>
    ensures { PutsOn K.Sink sink.old sink.new page.old page.new (head_text members.now answer.now) result }
{
    match answer {
        Answer::Bad(fault) => write_bad(page, sink, fault),
        Answer::Members { own, digest } => write_members(page, sink, members, *own, *digest),
        Answer::State { own, impostor, .. } => write_state(page, sink, answer, own, *impostor),
        Answer::Heads(_) => page.put(sink, b"heads"),
        Answer::Beyond { all, rows, .. } => write_beyond(page, sink, *all, *rows),
        Answer::Put {
            before,
            accepted,
            known,
            ..
        } => write_put(page, sink, b"put", *before, *accepted, *known),
        Answer::Restored {
            before,
            accepted,
            known,
            ..
        } => write_put(page, sink, b"restored", *before, *accepted, *known),
        Answer::Made { place, .. } => write_made(page, sink, *place),
        Answer::NotMade(why) => write_not_made(page, sink, why),
        Answer::Settled(count) => write_word(page, sink, b"settled", *count),
        Answer::Order { all, .. } => write_word(page, sink, b"order", *all),
        Answer::Events { all, .. } => write_word(page, sink, b"events", *all),
        Answer::Balances { ordered, .. } => write_word(page, sink, b"balances", *ordered),
        Answer::Proof(bytes) => write_word(page, sink, b"proof", bytes.as_slice().len() as u64),
    }
}

ghost use Rattle.std.specs.Prelude.{◌≡◌, ◌++◌, length, slice_get};
ghost use Rattle.std.specs.Fmt.{decimal};
ghost use Rattle.hg_graph.specs.RowsWithRoom.{rows_of};
ghost use Rattle.hg_io.specs.Printing.{Prints, PutsOn};
ghost use Rattle.hg_pieces.specs.Pieces.{piece_text, pieces_text};
ghost use Rattle.hg_certify.specs.Text.{entries_text, entry_text, head_text, name_text, shown_text, why_text};

use hg_event::Event;
use hg_io::{Failed, Page, Sink};
use hg_model::Placed;
use hg_pieces::{Piece, fault_parts, write_pieces};
use hg_proof::{Shown, Why};
use std::sync::Arc;

/// The first line.
fn write_head<K: Sink>(page: &mut Page, sink: &mut K, shown: &Shown) -> Result<(), Failed>
    ensures { PutsOn K.Sink sink.old sink.new page.old page.new (head_text shown.now) result }
{
    write_pieces(
        page,
        sink,
        &[
            Piece::Bytes(b"yes rows "),
            Piece::Number(shown.events().len() as u64),
            Piece::Bytes(b" ordered "),
            Piece::Number(shown.order().len() as u64),
            Piece::Bytes(b"\n"),
        ],
    )
}

/// The name of the event at this place, nothing where there is none.
fn name_piece(events: &[Arc<Event>], place: usize) -> Piece<'_>
    ensures { piece_text result ≡ name_text (slice_get (rows_of events.now) place) }
{
    match events.get(place) {
        Some(event) => Piece::Name(&event.row().name),
        None => Piece::Bytes(b""),
    }
}

/// The line of an entry.
fn write_entry<K: Sink>(
    page: &mut Page,
    sink: &mut K,
    events: &[Arc<Event>],
    number: u64,
    p: &Placed,
) -> Result<(), Failed>
    ensures { PutsOn K.Sink sink.old sink.new page.old page.new (entry_text (rows_of events.now) number p.now) result }
{
    write_pieces(
        page,
        sink,
        &[
            Piece::Number(number),
            Piece::Bytes(b" "),
            name_piece(events, p.place),
            Piece::Bytes(b" round "),
            Piece::Number(u64::from(p.received)),
            Piece::Bytes(b" time "),
            Piece::Number(p.time),
            Piece::Bytes(b"\n"),
        ],
    )
}

/// The lines of the order, numbered from 1.
fn write_entries<K: Sink>(
    page: &mut Page,
    sink: &mut K,
    events: &[Arc<Event>],
    order: &[Placed],
) -> Result<(), Failed>
    ensures { PutsOn K.Sink sink.old sink.new page.old page.new (entries_text (rows_of events.now) 1 order.now) result }
{
    for (i, p) in order.iter().enumerate() {
        write_entry(page, sink, events, i as u64 + 1, p)?;
    }
    Ok(())
}

/// All of it.
fn write_text<K: Sink>(page: &mut Page, sink: &mut K, shown: &Shown) -> Result<(), Failed>
    ensures { PutsOn K.Sink sink.old sink.new page.old page.new (shown_text shown.now) result }
{
    write_head(page, sink, shown)?;
    write_entries(page, sink, shown.events(), shown.order())?;
    Ok(())
}

/// Writes what a certificate shows: how many rows, and of each entry of the order the name of its event, its round received
/// and its consensus timestamp. It takes no memory.
/// `Failed` comes with the first fault of the sink, which has then taken a front of the text, and not all of it.
#[tactic(auto, using(hg_io::proofs::PrintLaws::stopped_part))]
pub fn write_shown<K: Sink>(shown: &Shown, sink: &mut K) -> Result<(), Failed>
    ensures { Prints K.Sink sink.old sink.new (shown_text shown.now) result }
{
    let mut page = Page::new();
    write_text(&mut page, sink, shown)?;
    page.send(sink)
}

/// A word and a number.
fn numbered<'a>(word: &'a [u8], number: usize) -> [Piece<'a>; 5]
    ensures text { pieces_text result ≡ word.entry.now ++ decimal number }
    ensures five { length result ≡ 5 }
{
    let none = Piece::Bytes(b"");
    [
        Piece::Bytes(word),
        Piece::Number(number as u64),
        none,
        none,
        none,
    ]
}

/// The reason why a certificate shows nothing.
pub fn why_pieces(why: &Why) -> [Piece<'_>; 5]
    ensures text { pieces_text result ≡ why_text why.now }
    ensures five { length result ≡ 5 }
{
    match why {
        Why::Form(at) => numbered(b"form ", *at),
        Why::Repeat(i) => numbered(b"repeat ", *i),
        Why::Row(i, fault) => {
            let (word, detail) = fault_parts(fault);
            [
                Piece::Bytes(b"row "),
                Piece::Number(*i as u64),
                Piece::Bytes(b" "),
                Piece::Bytes(word),
                detail,
            ]
        }
        Why::Order(i) => numbered(b"order ", *i),
    }
}

ghost use Rattle.std.specs.Prelude.{◌++◌};
ghost use Rattle.hg_io.specs.Printing.{Prints, PutsOn};
ghost use Rattle.hg_keep.specs.Text.{counts_line, kept_text, made_line, making_line, opened_line};

use crate::kept::{KeepReport, Making, PutCounts};
use hg_io::{Failed, Page, Sink};
use hg_life::SyncMade;
use hg_pieces::{Piece, sync_made_phrase, write_pieces};
use hg_report::write_outcome;

/// The line of what was opened.
fn write_opened<K: Sink>(page: &mut Page, sink: &mut K, rows: u64) -> Result<(), Failed>
    ensures { PutsOn K.Sink sink.old sink.new page.old page.new (opened_line rows) result }
{
    write_pieces(
        page,
        sink,
        &[
            Piece::Bytes(b"opened "),
            Piece::Number(rows),
            Piece::Bytes(b"\n"),
        ],
    )
}

/// The line of the events that were put.
fn write_counts<K: Sink>(page: &mut Page, sink: &mut K, counts: PutCounts) -> Result<(), Failed>
    ensures { PutsOn K.Sink sink.old sink.new page.old page.new (counts_line counts) result }
{
    write_pieces(
        page,
        sink,
        &[
            Piece::Bytes(b"accepted "),
            Piece::Number(counts.accepted),
            Piece::Bytes(b" known "),
            Piece::Number(counts.known),
            Piece::Bytes(b" refused "),
            Piece::Number(counts.refused),
            Piece::Bytes(b"\n"),
        ],
    )
}

/// The line of the event that was to be made.
fn write_making<K: Sink>(page: &mut Page, sink: &mut K, told: &Making) -> Result<(), Failed>
    ensures { PutsOn K.Sink sink.old sink.new page.old page.new (making_line told.now) result }
{
    match told {
        Making::Made { place, digits } => write_pieces(
            page,
            sink,
            &[
                Piece::Bytes(b"made "),
                Piece::Number(*place as u64),
                Piece::Bytes(b" "),
                Piece::Bytes(digits.as_slice()),
                Piece::Bytes(b"\n"),
            ],
        ),
        Making::PeerBare => write_pieces(page, sink, &[Piece::Bytes(b"made none peer-bare\n")]),
        Making::Refused(fault) => {
            let none = SyncMade::Fault(*fault);
            let phrase = sync_made_phrase(&none);
            write_pieces(
                page,
                sink,
                &[
                    Piece::Bytes(b"made "),
                    Piece::Bytes(phrase.first),
                    Piece::Bytes(phrase.second),
                    phrase.detail,
                    Piece::Bytes(b"\n"),
                ],
            )
        }
    }
}

/// The same, if one was to be made.
fn write_made<K: Sink>(page: &mut Page, sink: &mut K, made: &Option<Making>) -> Result<(), Failed>
    ensures { PutsOn K.Sink sink.old sink.new page.old page.new (made_line made.now) result }
{
    match made {
        None => write_pieces(page, sink, &[]),
        Some(told) => write_making(page, sink, told),
    }
}

/// All of it.
fn write_text<K: Sink>(page: &mut Page, sink: &mut K, kept: &KeepReport) -> Result<(), Failed>
    ensures { PutsOn K.Sink sink.old sink.new page.old page.new (kept_text kept.now) result }
{
    write_opened(page, sink, kept.opened)?;
    write_counts(page, sink, kept.counts)?;
    write_made(page, sink, &kept.made)?;
    write_outcome(page, sink, &kept.outcome)?;
    Ok(())
}

/// Writes what came of the work: how many rows the node had, how many events were accepted, known and refused, the event that
/// was made, if one was to be, and the node's block. It takes no memory.
/// `Failed` comes with the first fault of the sink, which has then taken a front of the text, and not all of it.
#[tactic(auto, using(hg_io::proofs::PrintLaws::stopped_part))]
pub fn write_kept<K: Sink>(kept: &KeepReport, sink: &mut K) -> Result<(), Failed>
    ensures { Prints K.Sink sink.old sink.new (kept_text kept.now) result }
{
    let mut page = Page::new();
    write_text(&mut page, sink, kept)?;
    page.send(sink)
}

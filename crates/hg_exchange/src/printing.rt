ghost use Rattle.hg_io.specs.Printing.{Prints, PutsOn};
ghost use Rattle.hg_exchange.specs.Text.{taken_line, took_text};

use crate::exchange::Took;
use hg_gossip::Taken;
use hg_io::{Failed, Page, Sink};
use hg_pieces::{Piece, write_pieces};
use hg_report::write_outcome;

/// The line of the rows that were taken and refused.
fn write_counts<K: Sink>(page: &mut Page, sink: &mut K, counts: Taken) -> Result<(), Failed>
    ensures { PutsOn K.Sink sink.old sink.new page.old page.new (taken_line counts) result }
{
    write_pieces(
        page,
        sink,
        &[
            Piece::Bytes(b"taken "),
            Piece::Number(counts.taken),
            Piece::Bytes(b" refused "),
            Piece::Number(counts.refused),
            Piece::Bytes(b"\n"),
        ],
    )
}

/// All of it.
fn write_text<K: Sink>(page: &mut Page, sink: &mut K, took: &Took) -> Result<(), Failed>
    ensures { PutsOn K.Sink sink.old sink.new page.old page.new (took_text took.now) result }
{
    write_counts(page, sink, took.counts)?;
    write_outcome(page, sink, &took.outcome)?;
    Ok(())
}

/// Writes how many rows were taken and how many refused, and the node's block. It takes no memory. `Failed` comes with
/// the first fault of the sink, which has then taken a front of the text, and not all of it.
#[tactic(auto, using(hg_io::proofs::PrintLaws::stopped_part))]
pub fn write_took<K: Sink>(took: &Took, sink: &mut K) -> Result<(), Failed>
    ensures { Prints K.Sink sink.old sink.new (took_text took.now) result }
{
    let mut page = Page::new();
    write_text(&mut page, sink, took)?;
    page.send(sink)
}

ghost use Rattle.std.specs.Prelude.{◌≡◌};
ghost use Rattle.hg_io.specs.Printing.{Prints, PutsOn};
ghost use Rattle.hg_report.specs.Heads.{heads_text, piece_head, pieces_heads};

use hg_io::{Failed, Page, Sink};
use hg_model::Bytes;
use hg_outcome::{Outcome, Printed};
use hg_pieces::write_head;

/// The first line of a block; nothing of any other piece.
fn write_piece_head<K: Sink>(
    page: &mut Page,
    sink: &mut K,
    names: &[Bytes],
    piece: &Printed,
) -> Result<(), Failed>
    ensures { PutsOn K.Sink sink.old sink.new page.old page.new (piece_head names.now piece.now) result }
{
    match piece {
        Printed::Block(block) => write_head(page, sink, names, &block.head()),
        _ => Ok(()),
    }
}

fn write_heads<K: Sink>(
    page: &mut Page,
    sink: &mut K,
    names: &[Bytes],
    pieces: &[Printed],
) -> Result<(), Failed>
    ensures { PutsOn K.Sink sink.old sink.new page.old page.new (pieces_heads names.now pieces.now) result }
{
    for piece in pieces {
        write_piece_head(page, sink, names, piece)?;
    }
    Ok(())
}

/// Writes the first lines of the blocks, in order. It takes no memory. `Failed` comes with the first fault of the sink, which
/// has then taken a front of the text, and not all of it.
#[tactic(auto, using(hg_io::proofs::PrintLaws::stopped_part))]
pub fn heads_of<K: Sink>(outcome: &Outcome, sink: &mut K) -> Result<(), Failed>
    ensures { Prints K.Sink sink.old sink.new (heads_text outcome.now) result }
{
    let mut page = Page::new();
    write_heads(
        &mut page,
        sink,
        outcome.names.as_slice(),
        outcome.printed.as_slice(),
    )?;
    page.send(sink)
}

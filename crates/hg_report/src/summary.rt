ghost use Rattle.hg_io.specs.Printing.{Prints, PutsOn};
ghost use Rattle.hg_report.specs.Summary.{digest_line, node_text, nodes_text, told_text, total_line};

use hg_io::{Failed, Page, Sink};
use hg_model::{Bytes, Name};
use hg_outcome::{NodeSummary, Summary};
use hg_pieces::{Piece, write_head, write_pieces};

/// The line of the digest.
fn write_digest<K: Sink>(page: &mut Page, sink: &mut K, digest: &Name) -> Result<(), Failed>
    ensures { PutsOn K.Sink sink.old sink.new page.old page.new (digest_line digest.now) result }
{
    write_pieces(
        page,
        sink,
        &[
            Piece::Bytes(b"order "),
            Piece::Name(digest),
            Piece::Bytes(b"\n"),
        ],
    )
}

/// The line of the sum.
fn write_total<K: Sink>(page: &mut Page, sink: &mut K, total: u128) -> Result<(), Failed>
    ensures { PutsOn K.Sink sink.old sink.new page.old page.new (total_line total) result }
{
    write_pieces(
        page,
        sink,
        &[
            Piece::Bytes(b"total "),
            Piece::Wide(total),
            Piece::Bytes(b"\n"),
        ],
    )
}

/// What is told of a node.
fn write_node<K: Sink>(
    page: &mut Page,
    sink: &mut K,
    names: &[Bytes],
    node: &NodeSummary,
) -> Result<(), Failed>
    ensures { PutsOn K.Sink sink.old sink.new page.old page.new (node_text names.now node.now) result }
{
    write_head(page, sink, names, &node.head())?;
    write_digest(page, sink, &node.digest)?;
    write_total(page, sink, node.total)?;
    Ok(())
}

fn write_nodes<K: Sink>(
    page: &mut Page,
    sink: &mut K,
    names: &[Bytes],
    nodes: &[NodeSummary],
) -> Result<(), Failed>
    ensures { PutsOn K.Sink sink.old sink.new page.old page.new (nodes_text names.now nodes.now) result }
{
    for node in nodes {
        write_node(page, sink, names, node)?;
    }
    Ok(())
}

/// Writes a summary: of each node the first line of its block, the line `order` with the digest of the names of its ordered
/// rows, and the line `total` with the sum of its balances. It takes no memory.
/// `Failed` comes with the first fault of the sink, which has then taken a front of the text, and not all of it.
#[tactic(auto, using(hg_io::proofs::PrintLaws::stopped_part))]
pub fn summary_of<K: Sink>(summary: &Summary, sink: &mut K) -> Result<(), Failed>
    ensures { Prints K.Sink sink.old sink.new (told_text summary.now) result }
{
    let mut page = Page::new();
    write_nodes(
        &mut page,
        sink,
        summary.names.as_slice(),
        summary.nodes.as_slice(),
    )?;
    page.send(sink)
}

ghost use Rattle.hg_io.specs.Printing.{Prints, PutsOn};
ghost use Rattle.hg_service.specs.Text.{answer_text};
ghost use Rattle.hg_telling.specs.Parts.{count_text, text_in_parts};

use crate::first::write_head;
use crate::further::{count_of, write_further, write_tail};
use hg_io::{Failed, Page, Sink};
use hg_life::Members;
use hg_pieces::{Piece, write_pieces};
use hg_service::Answer;

/// How many lines follow, and a blank.
fn write_count<K: Sink>(page: &mut Page, sink: &mut K, count: usize) -> Result<(), Failed>
    ensures { PutsOn K.Sink sink.old sink.new page.old page.new (count_text count) result }
{
    write_pieces(
        page,
        sink,
        &[Piece::Number(count as u64), Piece::Bytes(b" ")],
    )
}

/// The answer, one part behind the other.
fn write_parts<K: Sink>(
    page: &mut Page,
    sink: &mut K,
    members: &Members,
    answer: &Answer,
) -> Result<(), Failed>
    ensures { PutsOn K.Sink sink.old sink.new page.old page.new (text_in_parts members.now answer.now) result }
{
    write_count(page, sink, count_of(members, answer))?;
    write_head(page, sink, members, answer)?;
    write_tail(page, sink, members, answer)?;
    page.put(sink, b"\n")?;
    write_further(page, sink, members, answer)?;
    Ok(())
}

/// The same, as the answer's text.
fn write_text<K: Sink>(
    page: &mut Page,
    sink: &mut K,
    members: &Members,
    answer: &Answer,
) -> Result<(), Failed>
    ensures { PutsOn K.Sink sink.old sink.new page.old page.new (answer_text members.now answer.now) result }
{
    write_parts(page, sink, members, answer)
}

/// Writes the text of an answer. It takes no memory; the sink gets pages of up to 4,096 bytes. `Failed` comes with the first
/// fault of the sink, which has then taken a front of the text, and not all of it.
#[tactic(auto, using(hg_io::proofs::PrintLaws::stopped_part))]
pub fn write_answer<K: Sink>(sink: &mut K, members: &Members, answer: &Answer) -> Result<(), Failed>
    ensures { Prints K.Sink sink.old sink.new (answer_text members.now answer.now) result }
{
    let mut page = Page::new();
    write_text(&mut page, sink, members, answer)?;
    page.send(sink)
}

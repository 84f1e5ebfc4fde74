ghost use Rattle.hg_io.specs.Printing.{Prints, PutsOn};
ghost use Rattle.hg_outcome.specs.Report.{printed_text, printed_texts, pull_line, report_text, sync_line};
ghost use Rattle.hg_report.specs.Writes.{PutsAnswer};

use hg_io::{Failed, Page, Sink};
use hg_life::SyncReport;
use hg_model::Bytes;
use hg_outcome::{Outcome, Printed};
use hg_pieces::{
    Phrase, Piece, make_answer_phrase, number_phrase, put_answer_phrase, sync_made_phrase,
    write_block, write_pieces,
};

/// The line of an answer, with the script's own word.
fn write_answer<'a, K: Sink>(
    page: &mut Page,
    sink: &mut K,
    line: u64,
    word: &'a [u8],
    phrase: Phrase<'a>,
) -> Result<(), Failed>
    ensures { PutsAnswer K.Sink sink.old sink.new page.old page.new line word.entry.now phrase.entry result }
{
    write_pieces(
        page,
        sink,
        &[
            Piece::Number(line),
            Piece::Bytes(b" "),
            Piece::Bytes(word),
            Piece::Bytes(b" "),
            Piece::Bytes(phrase.first),
            Piece::Bytes(phrase.second),
            phrase.detail,
            Piece::Bytes(b"\n"),
        ],
    )
}

/// The line of a `sync`.
fn write_sync<K: Sink>(
    page: &mut Page,
    sink: &mut K,
    line: u64,
    report: &SyncReport,
) -> Result<(), Failed>
    ensures { PutsOn K.Sink sink.old sink.new page.old page.new (sync_line line report.now) result }
{
    let phrase = sync_made_phrase(&report.made);
    write_pieces(
        page,
        sink,
        &[
            Piece::Number(line),
            Piece::Bytes(b" sync taken "),
            Piece::Number(report.taken),
            Piece::Bytes(b" refused "),
            Piece::Number(report.refused),
            Piece::Bytes(b" made "),
            Piece::Bytes(phrase.first),
            Piece::Bytes(phrase.second),
            phrase.detail,
            Piece::Bytes(b"\n"),
        ],
    )
}

/// The line of a `pull`.
fn write_pull<K: Sink>(
    page: &mut Page,
    sink: &mut K,
    line: u64,
    taken: u64,
    refused: u64,
) -> Result<(), Failed>
    ensures { PutsOn K.Sink sink.old sink.new page.old page.new (pull_line line taken refused) result }
{
    write_pieces(
        page,
        sink,
        &[
            Piece::Number(line),
            Piece::Bytes(b" pull taken "),
            Piece::Number(taken),
            Piece::Bytes(b" refused "),
            Piece::Number(refused),
            Piece::Bytes(b"\n"),
        ],
    )
}

fn write_printed<K: Sink>(
    page: &mut Page,
    sink: &mut K,
    names: &[Bytes],
    printed: &Printed,
) -> Result<(), Failed>
    ensures { PutsOn K.Sink sink.old sink.new page.old page.new (printed_text names.now printed.now) result }
{
    match printed {
        Printed::Create { line, answer } => {
            write_answer(page, sink, *line, b"create", make_answer_phrase(answer))
        }
        Printed::Join { line, answer } => {
            write_answer(page, sink, *line, b"join", make_answer_phrase(answer))
        }
        Printed::Sync { line, report } => write_sync(page, sink, *line, report),
        Printed::Pull {
            line,
            taken,
            refused,
        } => write_pull(page, sink, *line, *taken, *refused),
        Printed::Give { line, answer } => {
            write_answer(page, sink, *line, b"give", put_answer_phrase(answer))
        }
        Printed::Freeze { line, len } => {
            write_answer(page, sink, *line, b"freeze", number_phrase(*len))
        }
        Printed::Publish { line, count } => {
            write_answer(
                page,
                sink,
                *line,
                b"publish",
                number_phrase(u64::from(*count)),
            )
        }
        Printed::Block(block) => write_block(page, sink, false, names, block),
        Printed::Names(block) => write_block(page, sink, true, names, block),
    }
}

fn write_texts<K: Sink>(
    page: &mut Page,
    sink: &mut K,
    names: &[Bytes],
    texts: &[Printed],
) -> Result<(), Failed>
    ensures { PutsOn K.Sink sink.old sink.new page.old page.new (printed_texts names.now texts.now) result }
{
    for printed in texts {
        write_printed(page, sink, names, printed)?;
    }
    Ok(())
}

/// Puts the text of all that a run prints on a page before a sink. It takes no memory.
pub fn write_outcome<K: Sink>(
    page: &mut Page,
    sink: &mut K,
    outcome: &Outcome,
) -> Result<(), Failed>
    ensures { PutsOn K.Sink sink.old sink.new page.old page.new (report_text outcome.now) result }
{
    let names = outcome.names.as_slice();
    write_texts(page, sink, names, outcome.printed.as_slice())
}

/// Writes the text of all that a run prints. It takes no memory; the sink gets pages of up to 4,096 bytes, and a piece that
/// is longer than a page by itself.
/// `Failed` comes with the first fault of the sink, which has then taken a front of the text, and not all of it.
#[tactic(auto, using(hg_io::proofs::PrintLaws::stopped_part))]
pub fn text_of<K: Sink>(outcome: &Outcome, sink: &mut K) -> Result<(), Failed>
    ensures { Prints K.Sink sink.old sink.new (report_text outcome.now) result }
{
    let mut page = Page::new();
    write_texts(
        &mut page,
        sink,
        outcome.names.as_slice(),
        outcome.printed.as_slice(),
    )?;
    page.send(sink)
}

ghost use Rattle.hg_io.specs.Printing.{PutsOn};
ghost use Rattle.std.specs.Prelude.{◌≡◌, ◌++◌, codes, length};
ghost use Rattle.hg_outcome.specs.Report.{balance_text, balances_text, effect_text, head_line, line_end};
ghost use Rattle.hg_pieces.specs.Pieces.{pieces_text};
ghost use Rattle.hg_pieces.specs.Writes.{PutsBlock, PutsOrder, PutsLine};

use crate::pieces::{Piece, name_of, write_pieces};
use hg_io::{Failed, Page, Sink};
use hg_life::Effect;
use hg_model::Bytes;
use hg_outcome::{Block, Head, OrderLine};

/// What came of an event's payload, behind a blank.
pub fn effect_pieces(effect: &Effect) -> [Piece<'_>; 4]
    ensures text { pieces_text result ≡ codes " " ++ effect_text effect.now }
    ensures four { length result ≡ 4 }
{
    let none = Piece::Bytes(b"");
    match effect {
        Effect::Empty => [Piece::Bytes(b" -"), none, none, none],
        Effect::Unread => [Piece::Bytes(b" unread"), none, none, none],
        Effect::Paid { done, of } => [
            Piece::Bytes(b" paid "),
            Piece::Number(u64::from(*done)),
            Piece::Bytes(b" of "),
            Piece::Number(u64::from(*of)),
        ],
    }
}

/// The end of a line of the order, with the event's name where it is asked for.
fn line_end(named: bool, line: &OrderLine) -> [Piece<'_>; 7]
    ensures { pieces_text result ≡ line_end named line.now }
{
    let [what, done, between, of_all] = effect_pieces(&line.effect);
    let end = Piece::Bytes(b"\n");
    if named {
        let name = Piece::Name(&line.name);
        [what, done, between, of_all, Piece::Bytes(b" "), name, end]
    } else {
        let none = Piece::Bytes(b"");
        [what, done, between, of_all, none, none, end]
    }
}

/// The line of a row of the order, with the event's name where it is asked for.
fn write_order_line<'a, K: Sink>(
    page: &mut Page,
    sink: &mut K,
    named: bool,
    names: &'a [Bytes],
    number: u64,
    line: &'a OrderLine,
) -> Result<(), Failed>
    ensures { PutsLine K.Sink sink.old sink.new page.old page.new named names.entry.now number line.entry.now result }
{
    let [what, done, between, of_all, blank, name, end] = line_end(named, line);
    write_pieces(
        page,
        sink,
        &[
            Piece::Number(number),
            Piece::Bytes(b" "),
            Piece::Bytes(name_of(names, usize::from(line.creator))),
            Piece::Bytes(b" "),
            Piece::Number(line.sequence),
            Piece::Bytes(b" round "),
            Piece::Number(u64::from(line.received)),
            Piece::Bytes(b" time "),
            Piece::Number(line.time),
            what,
            done,
            between,
            of_all,
            blank,
            name,
            end,
        ],
    )
}

/// The lines of an order, numbered from 1.
fn write_order<'a, K: Sink>(
    page: &mut Page,
    sink: &mut K,
    named: bool,
    names: &'a [Bytes],
    lines: &'a [OrderLine],
) -> Result<(), Failed>
    ensures { PutsOrder K.Sink sink.old sink.new page.old page.new named names.entry.now lines.entry.now result }
{
    for (i, line) in lines.iter().enumerate() {
        write_order_line(page, sink, named, names, i as u64 + 1, line)?;
    }
    Ok(())
}

fn write_balance<K: Sink>(
    page: &mut Page,
    sink: &mut K,
    names: &[Bytes],
    member: usize,
    balance: u64,
) -> Result<(), Failed>
    ensures { PutsOn K.Sink sink.old sink.new page.old page.new (balance_text names.now member balance) result }
{
    write_pieces(
        page,
        sink,
        &[
            Piece::Bytes(b"balance "),
            Piece::Bytes(name_of(names, member)),
            Piece::Bytes(b" "),
            Piece::Number(balance),
            Piece::Bytes(b"\n"),
        ],
    )
}

/// A line for each member's balance, in the order of the members.
fn write_balances<K: Sink>(
    page: &mut Page,
    sink: &mut K,
    names: &[Bytes],
    balances: &[u64],
) -> Result<(), Failed>
    ensures { PutsOn K.Sink sink.old sink.new page.old page.new (balances_text names.now 0 balances.now) result }
{
    for (i, balance) in balances.iter().enumerate() {
        write_balance(page, sink, names, i, *balance)?;
    }
    Ok(())
}

/// The first line of a block.
pub fn write_head<K: Sink>(
    page: &mut Page,
    sink: &mut K,
    names: &[Bytes],
    head: &Head,
) -> Result<(), Failed>
    ensures { PutsOn K.Sink sink.old sink.new page.old page.new (head_line names.now head.now) result }
{
    write_pieces(
        page,
        sink,
        &[
            Piece::Bytes(b"node "),
            Piece::Bytes(name_of(names, usize::from(head.member))),
            Piece::Bytes(b" events "),
            Piece::Number(head.events),
            Piece::Bytes(b" forkers "),
            Piece::Number(u64::from(head.forkers)),
            Piece::Bytes(b" round "),
            Piece::Number(u64::from(head.greatest)),
            Piece::Bytes(b" closed "),
            Piece::Number(u64::from(head.closed)),
            Piece::Bytes(b" ordered "),
            Piece::Number(head.ordered),
            Piece::Bytes(b"\n"),
        ],
    )
}

/// What is printed of a node.
pub fn write_block<'a, K: Sink>(
    page: &mut Page,
    sink: &mut K,
    named: bool,
    names: &'a [Bytes],
    block: &'a Block,
) -> Result<(), Failed>
    ensures { PutsBlock K.Sink sink.old sink.new page.old page.new named names.entry.now block.entry.now result }
{
    write_head(page, sink, names, &block.head())?;
    write_order(page, sink, named, names, block.order.as_slice())?;
    write_balances(page, sink, names, block.balances.as_slice())?;
    Ok(())
}

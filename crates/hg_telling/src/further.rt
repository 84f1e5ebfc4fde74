ghost use Rattle.std.specs.Prelude.{◌≡◌, ◌++◌, codes, length};
ghost use Rattle.hex.specs.Hex.{encode_lower};
ghost use Rattle.hg_io.specs.Printing.{PutsOn};
ghost use Rattle.hg_service.specs.Binding.{entry_text};
ghost use Rattle.hg_service.specs.Text as text;
ghost use Rattle.hg_telling.specs.Parts.{balance_line, balance_lines, entry_lines, further_count, further_text, more_name, more_names_in, names_in};
ghost use Rattle.hg_telling.specs.Parts.{ordered_end, ordered_front, ordered_lines, ordered_parts, refused_lines, some_names, tail_text};

use crate::digits::{cut_count, write_cut, write_digits, write_events, write_names};
use crate::first::member_name;
use hg_io::{Failed, Page, Sink};
use hg_life::{MemberEntry, Members};
use hg_model::{Member, Name};
use hg_outcome::OrderLine;
use hg_pieces::{Piece, effect_pieces, fault_parts, write_pieces};
use hg_service::{Answer, OrderedEvent, RefusedEvent};

fn write_refused<K: Sink>(
    page: &mut Page,
    sink: &mut K,
    refused: &RefusedEvent,
) -> Result<(), Failed>
    ensures { PutsOn K.Sink sink.old sink.new page.old page.new (text.refused_text refused.now ++ codes "\n") result }
{
    let (word, detail) = fault_parts(&refused.fault);
    write_pieces(
        page,
        sink,
        &[
            Piece::Number(refused.number),
            Piece::Bytes(b" "),
            Piece::Bytes(word),
            detail,
            Piece::Bytes(b"\n"),
        ],
    )
}

/// A line for each refused event.
#[tactic(auto, using(hg_io::proofs::PrintLaws::none_put, hg_io::proofs::PrintLaws::more_put, hg_io::proofs::PrintLaws::all_put, hg_io::proofs::PrintLaws::stopped_within))]
fn write_all_refused<K: Sink>(
    page: &mut Page,
    sink: &mut K,
    events: &[RefusedEvent],
) -> Result<(), Failed>
    ensures { PutsOn K.Sink sink.old sink.new page.old page.new (refused_lines events.now) result }
{
    for event in events {
        write_refused(page, sink, event)?;
    }
    Ok(())
}

fn write_balance<K: Sink>(
    page: &mut Page,
    sink: &mut K,
    members: &Members,
    member: usize,
    balance: u64,
) -> Result<(), Failed>
    ensures { PutsOn K.Sink sink.old sink.new page.old page.new (balance_line members.now member balance) result }
{
    write_pieces(
        page,
        sink,
        &[
            Piece::Bytes(member_name(members, member)),
            Piece::Bytes(b" "),
            Piece::Number(balance),
            Piece::Bytes(b"\n"),
        ],
    )
}

/// A line for each balance.
#[tactic(auto, using(hg_io::proofs::PrintLaws::none_put, hg_io::proofs::PrintLaws::more_put, hg_io::proofs::PrintLaws::all_put, hg_io::proofs::PrintLaws::stopped_within))]
fn write_balances<K: Sink>(
    page: &mut Page,
    sink: &mut K,
    members: &Members,
    balances: &[u64],
) -> Result<(), Failed>
    ensures { PutsOn K.Sink sink.old sink.new page.old page.new (balance_lines members.now 0 balances.now) result }
{
    for (i, balance) in balances.iter().enumerate() {
        write_balance(page, sink, members, i, *balance)?;
    }
    Ok(())
}

fn write_entry<K: Sink>(page: &mut Page, sink: &mut K, entry: &MemberEntry) -> Result<(), Failed>
    ensures { PutsOn K.Sink sink.old sink.new page.old page.new (entry_text entry.now ++ codes "\n") result }
{
    write_pieces(
        page,
        sink,
        &[
            Piece::Bytes(entry.name.as_slice()),
            Piece::Bytes(b" "),
            Piece::Number(entry.balance),
            Piece::Bytes(b" "),
            Piece::Number(u64::from(entry.stake)),
            Piece::Bytes(b"\n"),
        ],
    )
}

/// A line for each member.
#[tactic(auto, using(hg_io::proofs::PrintLaws::none_put, hg_io::proofs::PrintLaws::more_put, hg_io::proofs::PrintLaws::all_put, hg_io::proofs::PrintLaws::stopped_within))]
fn write_entries<K: Sink>(
    page: &mut Page,
    sink: &mut K,
    entries: &[MemberEntry],
) -> Result<(), Failed>
    ensures { PutsOn K.Sink sink.old sink.new page.old page.new (entry_lines entries.now) result }
{
    for entry in entries {
        write_entry(page, sink, entry)?;
    }
    Ok(())
}

/// A line of the order up to the event's name.
fn write_ordered_front<K: Sink>(
    page: &mut Page,
    sink: &mut K,
    members: &Members,
    number: u128,
    line: &OrderLine,
) -> Result<(), Failed>
    ensures { PutsOn K.Sink sink.old sink.new page.old page.new (ordered_front members.now number line.now) result }
{
    write_pieces(
        page,
        sink,
        &[
            Piece::Wide(number),
            Piece::Bytes(b" "),
            Piece::Bytes(member_name(members, usize::from(line.creator))),
            Piece::Bytes(b" "),
            Piece::Number(line.sequence),
            Piece::Bytes(b" round "),
            Piece::Number(u64::from(line.received)),
            Piece::Bytes(b" time "),
            Piece::Number(line.time),
            Piece::Bytes(b" "),
        ],
    )
}

fn write_ordered_name<K: Sink>(page: &mut Page, sink: &mut K, name: &Name) -> Result<(), Failed>
    ensures { PutsOn K.Sink sink.old sink.new page.old page.new (encode_lower name.now ++ codes " ") result }
{
    write_pieces(page, sink, &[Piece::Name(name), Piece::Bytes(b" ")])
}

/// The payload in digits, `-` where there is none.
fn write_payload<K: Sink>(page: &mut Page, sink: &mut K, payload: &[u8]) -> Result<(), Failed>
    ensures { PutsOn K.Sink sink.old sink.new page.old page.new (text.digits_or_dash payload.now) result }
{
    if payload.is_empty() {
        page.put(sink, b"-")
    } else {
        write_digits(page, sink, payload)
    }
}

/// What stands behind the payload.
fn write_ordered_end<K: Sink>(page: &mut Page, sink: &mut K, line: &OrderLine) -> Result<(), Failed>
    ensures { PutsOn K.Sink sink.old sink.new page.old page.new (ordered_end line.now) result }
{
    let [what, done, between, of_all] = effect_pieces(&line.effect);
    write_pieces(
        page,
        sink,
        &[what, done, between, of_all, Piece::Bytes(b"\n")],
    )
}

fn write_ordered<K: Sink>(
    page: &mut Page,
    sink: &mut K,
    members: &Members,
    number: u128,
    event: &OrderedEvent,
) -> Result<(), Failed>
    ensures { PutsOn K.Sink sink.old sink.new page.old page.new (ordered_parts members.now number event.now) result }
{
    write_ordered_front(page, sink, members, number, &event.line)?;
    write_ordered_name(page, sink, &event.line.name)?;
    write_payload(page, sink, event.payload.as_slice())?;
    write_ordered_end(page, sink, &event.line)?;
    Ok(())
}

/// A line for each event of the order, the first of this number.
#[tactic(auto, using(hg_io::proofs::PrintLaws::none_put, hg_io::proofs::PrintLaws::more_put, hg_io::proofs::PrintLaws::all_put, hg_io::proofs::PrintLaws::stopped_within))]
fn write_order<K: Sink>(
    page: &mut Page,
    sink: &mut K,
    members: &Members,
    first: u64,
    events: &[OrderedEvent],
) -> Result<(), Failed>
    ensures { PutsOn K.Sink sink.old sink.new page.old page.new (ordered_lines members.now first events.now) result }
{
    for (i, event) in events.iter().enumerate() {
        write_ordered(page, sink, members, u128::from(first) + i as u128, event)?;
    }
    Ok(())
}

fn write_more_name<K: Sink>(
    page: &mut Page,
    sink: &mut K,
    members: &Members,
    member: Member,
) -> Result<(), Failed>
    ensures { PutsOn K.Sink sink.old sink.new page.old page.new (more_name members.now member) result }
{
    write_pieces(
        page,
        sink,
        &[
            Piece::Bytes(b","),
            Piece::Bytes(member_name(members, usize::from(member))),
        ],
    )
}

/// The names of members, with a comma before each.
#[tactic(auto, using(hg_io::proofs::PrintLaws::none_put, hg_io::proofs::PrintLaws::more_put, hg_io::proofs::PrintLaws::all_put, hg_io::proofs::PrintLaws::stopped_within))]
fn write_more_names<K: Sink>(
    page: &mut Page,
    sink: &mut K,
    members: &Members,
    others: &[Member],
) -> Result<(), Failed>
    ensures { PutsOn K.Sink sink.old sink.new page.old page.new (more_names_in members.now others.now) result }
{
    for member in others {
        write_more_name(page, sink, members, *member)?;
    }
    Ok(())
}

/// The name of a member, and those of others.
fn write_some_names<K: Sink>(
    page: &mut Page,
    sink: &mut K,
    members: &Members,
    first: Member,
    others: &[Member],
) -> Result<(), Failed>
    ensures { PutsOn K.Sink sink.old sink.new page.old page.new (some_names members.now first others.now) result }
{
    page.put(sink, member_name(members, usize::from(first)))?;
    write_more_names(page, sink, members, others)?;
    Ok(())
}

/// The names of members between commas, `-` where there are none.
fn write_listed_names<K: Sink>(
    page: &mut Page,
    sink: &mut K,
    members: &Members,
    listed: &[Member],
) -> Result<(), Failed>
    ensures { PutsOn K.Sink sink.old sink.new page.old page.new (names_in members.now listed.now) result }
{
    match listed {
        [] => page.put(sink, b"-"),
        [first, others @ ..] => write_some_names(page, sink, members, *first, others),
    }
}

/// The end of the first line, which may be of any length.
pub fn write_tail<K: Sink>(
    page: &mut Page,
    sink: &mut K,
    members: &Members,
    answer: &Answer,
) -> Result<(), Failed>
    ensures { PutsOn K.Sink sink.old sink.new page.old page.new (tail_text members.now answer.now) result }
{
    match answer {
        Answer::State { strange, .. } => {
            write_listed_names(page, sink, members, strange.as_slice())
        }
        Answer::Made { event, .. } => write_digits(page, sink, event.as_slice()),
        _ => Ok(()),
    }
}

/// How many lines follow the first one.
pub fn count_of(members: &Members, answer: &Answer) -> usize
    ensures { result ≡ further_count members.now answer.now }
{
    match answer {
        Answer::Members { .. } => members.entries().len(),
        Answer::Heads(names) => names.as_slice().len(),
        Answer::Beyond { events, .. } => events.as_slice().len(),
        Answer::Events { events, .. } => events.as_slice().len(),
        Answer::Put { refused, .. } => refused.as_slice().len(),
        Answer::Restored { refused, .. } => refused.as_slice().len(),
        Answer::Order { events, .. } => events.as_slice().len(),
        Answer::Balances { balances, .. } => balances.as_slice().len(),
        Answer::Proof(bytes) => cut_count(bytes.as_slice()),
        _ => 0,
    }
}

/// The lines that follow the first one.
pub fn write_further<K: Sink>(
    page: &mut Page,
    sink: &mut K,
    members: &Members,
    answer: &Answer,
) -> Result<(), Failed>
    ensures { PutsOn K.Sink sink.old sink.new page.old page.new (further_text members.now answer.now) result }
{
    match answer {
        Answer::Members { .. } => write_entries(page, sink, members.entries()),
        Answer::Heads(names) => write_names(page, sink, names.as_slice()),
        Answer::Beyond { events, .. } => write_events(page, sink, events.as_slice()),
        Answer::Events { events, .. } => write_events(page, sink, events.as_slice()),
        Answer::Put { refused, .. } => write_all_refused(page, sink, refused.as_slice()),
        Answer::Restored { refused, .. } => write_all_refused(page, sink, refused.as_slice()),
        Answer::Order { first, events, .. } => {
            write_order(page, sink, members, *first, events.as_slice())
        }
        Answer::Balances { balances, .. } => {
            write_balances(page, sink, members, balances.as_slice())
        }
        Answer::Proof(bytes) => write_cut(page, sink, bytes.as_slice()),
        _ => Ok(()),
    }
}

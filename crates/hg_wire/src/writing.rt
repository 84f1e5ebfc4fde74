ghost use Rattle.std.specs.Prelude.{◌≡◌, ◌≤◌, length};
ghost use Rattle.std.specs.List.{concat};
ghost use Rattle.hg_io.specs.Printing.{Prints, PutsOn};
ghost use Rattle.hg_wire.specs.declared.message.Message.TheVariants.{Have, Rows};
ghost use Rattle.hg_wire.specs.Grammar.{head_bytes, item_count, last_bytes, message_bytes, parcel_bytes};
ghost use Rattle.hg_wire.specs.Reading.{count_limit};

use crate::fields::kind_byte;
use crate::message::{Message, Want};
use hg_io::{Failed, Page, Sink};
use hg_life::Parcel;
use hg_model::{Bytes, Name};

/// The magic, the kind, and how many names or rows follow.
fn head_of(want: Want, count: u32) -> [u8; 9]
    ensures { result ≡ head_bytes want count }
{
    let [a, b, c, d] = count.to_be_bytes();
    [b'H', b'G', b'W', b'1', kind_byte(want), a, b, c, d]
}

/// Puts the names, one behind the other.
#[tactic(auto, using(hg_io::proofs::PrintLaws::none_put, hg_io::proofs::PrintLaws::more_put, hg_io::proofs::PrintLaws::all_put, hg_io::proofs::PrintLaws::stopped_within))]
fn write_names<K: Sink>(page: &mut Page, sink: &mut K, names: &[Name]) -> Result<(), Failed>
    ensures { PutsOn K.Sink sink.old sink.new page.old page.new (concat names.now) result }
{
    for name in names {
        page.put(sink, name)?;
    }
    Ok(())
}

/// Puts the row.
fn write_row<K: Sink>(page: &mut Page, sink: &mut K, row: &Bytes) -> Result<(), Failed>
    ensures { PutsOn K.Sink sink.old sink.new page.old page.new row.now result }
{
    page.put(sink, row.as_slice())
}

/// Puts the rows, one behind the other.
#[tactic(auto, using(hg_io::proofs::PrintLaws::none_put, hg_io::proofs::PrintLaws::more_put, hg_io::proofs::PrintLaws::all_put, hg_io::proofs::PrintLaws::stopped_within))]
fn write_rows<K: Sink>(page: &mut Page, sink: &mut K, rows: &[Bytes]) -> Result<(), Failed>
    ensures { PutsOn K.Sink sink.old sink.new page.old page.new (concat rows.now) result }
{
    for row in rows {
        write_row(page, sink, row)?;
    }
    Ok(())
}

/// Puts the flag, and the name where there is one.
fn write_last<K: Sink>(page: &mut Page, sink: &mut K, last: &Option<Name>) -> Result<(), Failed>
    ensures { PutsOn K.Sink sink.old sink.new page.old page.new (last_bytes last.now) result }
{
    match last {
        None => page.put(sink, &[0]),
        Some(name) => {
            page.put(sink, &[1])?;
            page.put(sink, name)?;
            Ok(())
        }
    }
}

/// Puts what follows the head of ROWS.
fn write_parcel<K: Sink>(page: &mut Page, sink: &mut K, parcel: &Parcel) -> Result<(), Failed>
    ensures { PutsOn K.Sink sink.old sink.new page.old page.new (parcel_bytes parcel.now) result }
{
    write_rows(page, sink, parcel.rows.as_slice())?;
    write_last(page, sink, &parcel.last)?;
    Ok(())
}

/// Puts the message HAVE of these names.
fn put_have<K: Sink>(page: &mut Page, sink: &mut K, names: &[Name]) -> Result<(), Failed>
    requires { length names.now ≤ count_limit }
    ensures { PutsOn K.Sink sink.old sink.new page.old page.new (message_bytes (Have names.now)) result }
{
    page.put(sink, &head_of(Want::Have, names.len() as u32))?;
    write_names(page, sink, names)?;
    Ok(())
}

/// Puts the message ROWS of this parcel.
fn put_rows<K: Sink>(page: &mut Page, sink: &mut K, parcel: &Parcel) -> Result<(), Failed>
    requires { length parcel.now.rows ≤ count_limit }
    ensures { PutsOn K.Sink sink.old sink.new page.old page.new (message_bytes (Rows parcel.now)) result }
{
    page.put(
        sink,
        &head_of(Want::Rows, parcel.rows.as_slice().len() as u32),
    )?;
    write_parcel(page, sink, parcel)?;
    Ok(())
}

/// Puts the message.
fn put_message<K: Sink>(page: &mut Page, sink: &mut K, message: &Message) -> Result<(), Failed>
    requires { item_count message.now ≤ count_limit }
    ensures { PutsOn K.Sink sink.old sink.new page.old page.new (message_bytes message.now) result }
{
    match message {
        Message::Have(names) => put_have(page, sink, names.as_slice()),
        Message::Rows(parcel) => put_rows(page, sink, parcel),
    }
}

/// Writes the message, of at most 1,048,576 names or rows. It takes no memory; the sink gets pages of up to 4,096
/// bytes. `Failed` comes with the first fault of the sink, which has then taken a front of the message, and not all of
/// it.
#[tactic(auto, using(hg_io::proofs::PrintLaws::stopped_part, hg_io::proofs::PrintLaws::printed_by_page))]
pub fn write_message<K: Sink>(sink: &mut K, message: &Message) -> Result<(), Failed>
    requires { item_count message.now ≤ count_limit }
    ensures { Prints K.Sink sink.old sink.new (message_bytes message.now) result }
{
    let mut page = Page::new();
    put_message(&mut page, sink, message)?;
    page.send(sink)
}

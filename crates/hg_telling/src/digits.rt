ghost use Rattle.std.specs.Prelude.{◌≡◌, ◌≤◌, ◌++◌, codes, length};
ghost use Rattle.hex.specs.Hex.{encode_lower};
ghost use Rattle.hg_io.specs.Printing.{PutsOn};
ghost use Rattle.hg_service.specs.Text.{cut, digits_each, lines_text};

use hex::encode_to_slice;
use hg_io::{Failed, Page, Sink};
use hg_model::{Bytes, Name};
use hg_pieces::{Piece, write_pieces};

/// How many bytes are written in digits at once.
const PART: usize = 512;

/// How many bytes of a certificate a line has.
const CUT: usize = 32_768;

fn write_part<K: Sink>(page: &mut Page, sink: &mut K, part: &[u8]) -> Result<(), Failed>
    requires { length part.now ≤ PART }
    ensures { PutsOn K.Sink sink.old sink.new page.old page.new (encode_lower part.now) result }
{
    let mut digits = [0; 2 * PART];
    let text = &mut digits[..2 * part.len()];
    encode_to_slice(part, text).unwrap();
    page.put(sink, text)
}

/// The bytes in digits.
#[tactic(auto, using(hg_io::proofs::PrintLaws::none_put, hg_io::proofs::PrintLaws::more_put, hg_io::proofs::PrintLaws::all_put, hg_io::proofs::PrintLaws::stopped_within))]
pub fn write_digits<K: Sink>(page: &mut Page, sink: &mut K, bytes: &[u8]) -> Result<(), Failed>
    ensures { PutsOn K.Sink sink.old sink.new page.old page.new (encode_lower bytes.now) result }
{
    let mut rest = bytes;
    'parts: while !rest.is_empty() {
        let (part, others) = rest.split_at(rest.len().min(PART));
        write_part(page, sink, part)?;
        rest = others;
    }
    Ok(())
}

/// The same, as a line.
fn write_line<K: Sink>(page: &mut Page, sink: &mut K, bytes: &[u8]) -> Result<(), Failed>
    ensures { PutsOn K.Sink sink.old sink.new page.old page.new (encode_lower bytes.now ++ codes "\n") result }
{
    write_digits(page, sink, bytes)?;
    page.put(sink, b"\n")?;
    Ok(())
}

fn write_name<K: Sink>(page: &mut Page, sink: &mut K, name: &Name) -> Result<(), Failed>
    ensures { PutsOn K.Sink sink.old sink.new page.old page.new (encode_lower name.now ++ codes "\n") result }
{
    write_pieces(page, sink, &[Piece::Name(name), Piece::Bytes(b"\n")])
}

/// A line for each name.
#[tactic(auto, using(hg_io::proofs::PrintLaws::none_put, hg_io::proofs::PrintLaws::more_put, hg_io::proofs::PrintLaws::all_put, hg_io::proofs::PrintLaws::stopped_within))]
pub fn write_names<K: Sink>(page: &mut Page, sink: &mut K, names: &[Name]) -> Result<(), Failed>
    ensures { PutsOn K.Sink sink.old sink.new page.old page.new (lines_text (digits_each names.now)) result }
{
    for name in names {
        write_name(page, sink, name)?;
    }
    Ok(())
}

fn write_event<K: Sink>(page: &mut Page, sink: &mut K, event: &Bytes) -> Result<(), Failed>
    ensures { PutsOn K.Sink sink.old sink.new page.old page.new (encode_lower event.now ++ codes "\n") result }
{
    write_line(page, sink, event.as_slice())
}

/// A line for each event.
#[tactic(auto, using(hg_io::proofs::PrintLaws::none_put, hg_io::proofs::PrintLaws::more_put, hg_io::proofs::PrintLaws::all_put, hg_io::proofs::PrintLaws::stopped_within))]
pub fn write_events<K: Sink>(page: &mut Page, sink: &mut K, events: &[Bytes]) -> Result<(), Failed>
    ensures { PutsOn K.Sink sink.old sink.new page.old page.new (lines_text (digits_each events.now)) result }
{
    for event in events {
        write_event(page, sink, event)?;
    }
    Ok(())
}

/// The parts of a certificate, a line each.
#[tactic(auto, using(hg_io::proofs::PrintLaws::none_put, hg_io::proofs::PrintLaws::more_put, hg_io::proofs::PrintLaws::all_put, hg_io::proofs::PrintLaws::stopped_within))]
pub fn write_cut<K: Sink>(page: &mut Page, sink: &mut K, bytes: &[u8]) -> Result<(), Failed>
    ensures { PutsOn K.Sink sink.old sink.new page.old page.new (lines_text (digits_each (cut bytes.now))) result }
{
    let mut rest = bytes;
    'parts: while !rest.is_empty() {
        let (part, others) = rest.split_at(rest.len().min(CUT));
        write_line(page, sink, part)?;
        rest = others;
    }
    Ok(())
}

/// How many parts there are.
pub fn cut_count(bytes: &[u8]) -> usize
    ensures { result ≡ length (cut bytes.now) }
{
    let mut rest = bytes;
    let mut count = 0;
    'parts: while !rest.is_empty() {
        let (_, others) = rest.split_at(rest.len().min(CUT));
        rest = others;
        count += 1;
    }
    count
}

ghost use Rattle.std.specs.Prelude.{◌≡◌};
ghost use Rattle.hg_io.specs.Printing.{Prints, PutsOn};
ghost use Rattle.hg_outcome.specs.Report.{name_of_member};
ghost use Rattle.hg_pieces.specs.Pieces.{piece_text, pieces_text};

use hg_io::{Failed, Page, Sink};
use hg_model::{Bytes, Name};
use hg_name::name_hex;
use itoa::Buffer;

/// A piece of a line.
#[derive(Clone, Copy, Debug)]
pub enum Piece<'a> {
    /// Bytes as they are.
    Bytes(&'a [u8]),
    /// A number in decimal digits.
    Number(u64),
    /// The same, of up to 128 bits.
    Wide(u128),
    /// The same, with a minus before it where it is below 0.
    Signed(i64),
    /// An event's name in lower-case hexadecimal digits.
    Name(&'a Name),
}

/// A member's name, nothing for a number that is no member's.
pub fn name_of(names: &[Bytes], member: usize) -> &[u8]
    ensures { result.now ≡ name_of_member names.now member }
{
    match names.get(member) {
        Some(name) => name.as_slice(),
        None => &[],
    }
}

fn write_piece<K: Sink>(page: &mut Page, sink: &mut K, piece: &Piece<'_>) -> Result<(), Failed>
    ensures { PutsOn K.Sink sink.old sink.new page.old page.new (piece_text piece.now) result }
{
    match piece {
        Piece::Bytes(bytes) => page.put(sink, bytes),
        Piece::Number(number) => page.put(sink, Buffer::new().format(*number).as_bytes()),
        Piece::Wide(number) => page.put(sink, Buffer::new().format(*number).as_bytes()),
        Piece::Signed(number) => page.put(sink, Buffer::new().format(*number).as_bytes()),
        Piece::Name(name) => page.put(sink, name_hex(name).as_slice()),
    }
}

/// Puts the pieces one after the other.
#[tactic(auto, using(hg_io::proofs::PrintLaws::none_put, hg_io::proofs::PrintLaws::more_put, hg_io::proofs::PrintLaws::all_put, hg_io::proofs::PrintLaws::stopped_within))]
pub fn write_pieces<K: Sink>(
    page: &mut Page,
    sink: &mut K,
    pieces: &[Piece<'_>],
) -> Result<(), Failed>
    ensures { PutsOn K.Sink sink.old sink.new page.old page.new (pieces_text pieces.now) result }
{
    for piece in pieces {
        write_piece(page, sink, piece)?;
    }
    Ok(())
}

/// Writes the pieces, one after the other. It takes no memory; the sink gets pages of up to 4,096 bytes, and a piece that is
/// longer than a page by itself.
/// `Failed` comes with the first fault of the sink, which has then taken a front of their text, and not all of it.
#[tactic(auto, using(hg_io::proofs::PrintLaws::stopped_part, hg_io::proofs::PrintLaws::printed_by_page))]
pub fn print_pieces<K: Sink>(sink: &mut K, pieces: &[Piece<'_>]) -> Result<(), Failed>
    ensures { Prints K.Sink sink.old sink.new (pieces_text pieces.now) result }
{
    let mut page = Page::new();
    write_pieces(&mut page, sink, pieces)?;
    page.send(sink)
}

ghost use Rattle.std.specs.Prelude.{◌≡◌, ◌≤◌, ℕ, List, Ok, IfOk, IfSome};
ghost use Rattle.hg_io.specs.Answers.{Answers, AnswersLeft};
ghost use Rattle.hg_io.specs.Bytes.{IsLeftBy, IsReadOn};
ghost use Rattle.hg_io.specs.Faults.{Rose, raised};
ghost use Rattle.hg_io.specs.Files.{content_of};

use crate::failed::Failed;
use crate::shelf::Shelf;
use hg_model::{Bytes, Memory};
use std::alloc::Global;

/// What reading a file gave.
#[derive(Debug, Drop)]
pub enum FileAnswer {
    /// All bytes of the file, which are no more than the limit.
    Bytes(Bytes),
    /// The shelf failed at the file's name, and counted it.
    Failed,
    /// The file has more bytes than this limit.
    TooLong(usize),
}

/// How many bytes a read may give at once.
const PIECE: usize = 8192;

/// Reads the whole file of this name, if it has at most `limit` bytes. It keeps no more than `limit` bytes, and stops
/// at the first piece that passes it. The only error is want of memory.
pub fn read_file<F: Shelf>(
    alloc: Global,
    shelf: &mut F,
    name: &str,
    limit: usize,
) -> Result<FileAnswer, Memory>
    ensures answers { IfOk result (Answers (F.holds shelf.old) name.now limit) }
    ensures cause { result ≡ Ok FileAnswer.Failed → Rose (F.faults shelf.old name.now) (F.faults shelf.new name.now) }
    ensures left { IfSome (F.holds shelf.old) (λ files. IsLeftBy (content_of files name.now) (F.left shelf.old) (F.left shelf.new)) }
    ensures same { F.holds shelf.new ≡ F.holds shelf.old }
    ensures counts { (other : List ℕ) → F.faults shelf.old other ≤ F.faults shelf.new other }
    ensures begun { F.starts shelf.new ≡ raised (F.starts shelf.old) }
{
    match shelf.start(name) {
        Ok(()) => read_left(alloc, shelf, name, limit),
        Err(Failed) => Ok(FileAnswer::Failed),
    }
}

// Reads what is left of the started file.
fn read_left<F: Shelf>(
    alloc: Global,
    shelf: &mut F,
    name: &str,
    limit: usize,
) -> Result<FileAnswer, Memory>
    requires { F.At shelf.old name.now }
    ensures answers { IfOk result (AnswersLeft (F.left shelf.old) limit) }
    ensures cause { result ≡ Ok FileAnswer.Failed → Rose (F.faults shelf.old name.now) (F.faults shelf.new name.now) }
    ensures left { IsReadOn (F.left shelf.old) (F.left shelf.new) }
    ensures same { F.holds shelf.new ≡ F.holds shelf.old }
    ensures counts { (other : List ℕ) → F.faults shelf.old other ≤ F.faults shelf.new other }
    ensures begun { F.starts shelf.new ≡ F.starts shelf.old }
{
    let mut bytes = Vec::new(alloc);
    let mut piece = [0; PIECE];
    'pieces: loop {
        let Ok(count) = shelf.read(name, &mut piece) else {
            return Ok(FileAnswer::Failed);
        };
        if count == 0 {
            return Ok(FileAnswer::Bytes(Bytes::from_vec(bytes)));
        }
        if count > limit - bytes.len() {
            return Ok(FileAnswer::TooLong(limit));
        }
        bytes.extend_from_slice(&piece[..count])?;
    }
}

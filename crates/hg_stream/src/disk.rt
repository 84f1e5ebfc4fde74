ghost use Rattle.std.specs.Prelude.{◌≡◌, ◌≤◌, true, length, IfOk, IsSome, OnErr, OnOk};
ghost use Rattle.std.specs.Fs.{new_options, with_create, with_read, with_write};
ghost use Rattle.hg_io.specs.Faults.{Rose};
ghost use Rattle.hg_io.specs.FileView.{unknown};
ghost use Rattle.hg_stream.specs.Places.{IsReadAt, IsWrittenAt, OfOpen};

use hg_io::{Disk, Failed};
use std::fs::{OpenFile, OpenOptions};
use std::io;
use std::io::{Read, Seek, SeekFrom, Write};
use std::rt::Files;

/// A file of the machine, opened for reading and writing, and made where it is not there. It tells nothing of what the
/// file holds, nor of what a stop of the machine leaves; and clauses see that a file is started, and not by which name.
#[derive(Drop)]
pub struct RealDisk<'a, R: Files> {
    files: &'a R,
    file: Option<R::File>,
    faults: u64,
}

impl<'a, R: Files> RealDisk<'a, R> {
    /// No file is started yet, and nothing has failed.
    pub fn new(files: &'a R) -> RealDisk<'a, R>
        ensures { result.faults ≡ 0 }
    {
        RealDisk {
            files,
            file: None,
            faults: 0,
        }
    }
}

// Counts a fault.
fn fault(faults: &mut u64) -> Failed
    ensures rose { Rose faults.old faults.new }
    ensures counts { faults.old ≤ faults.new }
{
    *faults = faults.saturating_add(1);
    Failed
}

/// How the file is opened: to be read and written, and made where it is not there. What stands in it stays.
fn opening() -> OpenOptions
    ensures { result ≡ with_create (with_write (with_read new_options true) true) true }
{
    let mut how = OpenOptions::new();
    how.read(true).write(true).create(true);
    how
}

/// Reads at a place.
fn read_at<F: Read + Seek>(file: &mut F, at: u64, buf: &mut [u8]) -> io::Result<usize>
    ensures within { IfOk result (λ k. k ≤ length buf.new) }
    ensures read { IfOk result (λ k. IsReadAt F.stream_position F.remaining at buf.new k file.old file.new) }
{
    file.seek(SeekFrom::Start(at))?;
    file.read(buf)
}

/// Writes all of a piece at a place.
fn write_at<W: Write + Seek>(file: &mut W, at: u64, piece: &[u8]) -> io::Result<()>
    ensures { OnOk result (IsWrittenAt W.stream_position W.contents at piece.now file.old file.new) }
{
    file.seek(SeekFrom::Start(at))?;
    file.write_all(piece)
}

impl<R: Files> Disk for RealDisk<'_, R> {
    ghost use Rattle.hg_io.specs.FileLaws.{unknown_is_file};

    ghost file = { λ _. unknown };

    ghost At = { λ s _. IsSome s.file };

    ghost faults = { λ s _. s.faults };

    ghost sound = { λ _. unknown_is_file };

    fn start(&mut self, name: &str) -> Result<(), Failed> {
        match opening().open(self.files, name) {
            Ok(file) => {
                self.file = Some(file);
                Ok(())
            }
            Err(_) => Err(fault(&mut self.faults)),
        }
    }

    fn size(&mut self, _name: &str) -> Result<u64, Failed> {
        match self.file.as_ref().unwrap().metadata() {
            Ok(found) => Ok(found.len()),
            Err(_) => Err(fault(&mut self.faults)),
        }
    }

    fn read(&mut self, _name: &str, at: u64, buf: &mut [u8]) -> Result<usize, Failed>
        requires started { IsSome self.old.file }
        // A file that tells its position and its bytes gave those at this place, and none only at its end.
        ensures read { IfOk result (λ k. OfOpen (IsReadAt R.File.stream_position R.File.remaining at buf.new k)
            self.old.file self.new.file) }
        // With this, all that the trait ensures.
        ensures within { IfOk result (λ k. k ≤ length buf.new) }
        ensures started { IsSome self.new.file }
        ensures cause { OnErr result (Rose self.old.faults self.new.faults) }
        ensures counts { self.old.faults ≤ self.new.faults }
    {
        match read_at(self.file.as_mut().unwrap(), at, buf) {
            Ok(count) => Ok(count),
            Err(_) => Err(fault(&mut self.faults)),
        }
    }

    fn write(&mut self, _name: &str, at: u64, piece: &[u8]) -> Result<(), Failed>
        requires started { IsSome self.old.file }
        // A file that tells its position and its bytes got the whole piece at this place.
        ensures written { OnOk result (OfOpen (IsWrittenAt R.File.stream_position R.File.contents at piece.now)
            self.old.file self.new.file) }
        // With this, all that the trait ensures.
        ensures started { IsSome self.new.file }
        ensures cause { OnErr result (Rose self.old.faults self.new.faults) }
        ensures counts { self.old.faults ≤ self.new.faults }
    {
        match write_at(self.file.as_mut().unwrap(), at, piece) {
            Ok(()) => Ok(()),
            Err(_) => Err(fault(&mut self.faults)),
        }
    }

    fn sync(&mut self, _name: &str) -> Result<(), Failed> {
        match self.file.as_ref().unwrap().sync_all() {
            Ok(()) => Ok(()),
            Err(_) => Err(fault(&mut self.faults)),
        }
    }
}

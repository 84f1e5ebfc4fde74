ghost use Rattle.std.specs.Prelude.{◌≡◌, ◌<◌, ◌≤◌, None, length, IfOk, IsSome, OnErr};
ghost use Rattle.std.specs.Io.KnownBytes.{ReadConsumes};
ghost use Rattle.hg_io.specs.Faults.{Rose};
ghost use Rattle.hg_stream.specs.Places.{OfOpen};

use hg_io::{Failed, Shelf};
use std::fs;
use std::io::Read;
use std::rt::Files;

/// The files of the machine, one of which is open at a time. It tells nothing of what they hold.
#[derive(Drop)]
pub struct RealShelf<'a, R: Files> {
    files: &'a R,
    file: Option<R::File>,
    faults: u64,
    starts: u64,
}

impl<'a, R: Files> RealShelf<'a, R> {
    /// No file is open yet, none was started, and nothing has failed.
    pub fn new(files: &'a R) -> RealShelf<'a, R>
        ensures faults { result.faults ≡ 0 }
        ensures starts { result.starts ≡ 0 }
    {
        RealShelf {
            files,
            file: None,
            faults: 0,
            starts: 0,
        }
    }
}

impl<R: Files> Shelf for RealShelf<'_, R> {
    ghost holds = { λ _. None };

    ghost left = { λ _. None };

    ghost At = { λ s _. IsSome s.file };

    ghost faults = { λ s _. s.faults };

    ghost starts = { λ s. s.starts };

    fn start(&mut self, name: &str) -> Result<(), Failed> {
        self.starts = self.starts.saturating_add(1);
        match fs::open(self.files, name) {
            Ok(file) => {
                self.file = Some(file);
                Ok(())
            }
            Err(_) => {
                self.faults = self.faults.saturating_add(1);
                Err(Failed)
            }
        }
    }

    fn read(&mut self, _name: &str, buf: &mut [u8]) -> Result<usize, Failed>
        requires started { IsSome self.old.file }
        requires room { 0 < length buf.old }
        // A file that tells what is to come gave its next bytes, none only at its end, and loses nothing at `Failed`.
        ensures bytes { OfOpen (λ old new. ReadConsumes (R.File.remaining old) (R.File.remaining new) result buf.new)
            self.old.file self.new.file }
        // With this, all that the trait ensures.
        ensures within { IfOk result (λ k. k ≤ length buf.new) }
        ensures started { IsSome self.new.file }
        ensures cause { OnErr result (Rose self.old.faults self.new.faults) }
        ensures counts { self.old.faults ≤ self.new.faults }
        ensures begun { self.new.starts ≡ self.old.starts }
    {
        match self.file.as_mut().unwrap().read(buf) {
            Ok(count) => Ok(count),
            Err(_) => {
                self.faults = self.faults.saturating_add(1);
                Err(Failed)
            }
        }
    }
}

ghost use Rattle.std.specs.Prelude.{◌≡◌, ◌↔◌, ◌<◌, ◌≤◌, ◌++◌, ◌+◌, ◌-◌, [], ℕ, List, Contains, None, Some, IfOk, IsErr, IsTrue, OnErr, OnOk, drop, length, min, position, slice_index, string_bytes, take};
ghost use Rattle.std.specs.Str.{bytes_eq};
ghost use Rattle.hg_io.specs.Faults.{Rose, raised};
ghost use Rattle.hg_io.specs.Files.{content_of, file_place};
ghost use Rattle.hg_io.specs.FilesOf.{files_of};
ghost use Rattle.hg_io.specs.ShelfState.{IsAt, RefusesStart, after_fault, after_read, after_start, begun, bytes_of, called, faults_at, new_shelf, started_bytes};

use crate::failed::Failed;
use crate::shelf::Shelf;
use hg_model::Memory;
use std::alloc::Global;
use std::marker::Model;

/// A shelf in memory, which fails at the calls that it was made to fail at, and at a start of a name that it does not
/// hold.
#[derive(Drop)]
pub struct ShelfMem {
    files: Vec<(String, Vec<u8>)>,
    started: Option<usize>,
    at: usize,
    fails: Vec<u64>,
    calls: u64,
    starts: u64,
    faults: Vec<u64>,
}

impl Model for ShelfMem {
    ghost use Rattle.std.specs.Prelude.{◌≡◌, ◌+◌, drop, vec_len};
    ghost use Rattle.hg_io.specs.FilesOf.{IsReadTo, files_of};
    ghost use Rattle.hg_io.specs.ShelfState.{ShelfState, started_bytes};

    ghost Value = { ShelfState };

    ghost view = { λ s. record {
      files = files_of s.files.items;
      started = s.started;
      left = drop s.at (started_bytes (files_of s.files.items) s.started);
      fails = s.fails.items;
      calls = s.calls;
      starts = s.starts;
      faults = s.faults.items;
    } };

    ghost invariant = { λ s. IsReadTo s.files.items s.started s.at × (vec_len s.faults ≡ vec_len s.files + 1) };
}

impl ShelfMem {
    /// A shelf of these files, each with its name and its bytes. Where two have one name, the first is read. The calls
    /// with the numbers of `fails` fail, starts and reads counted together from 0.
    pub fn new(
        alloc: Global,
        files: Vec<(String, Vec<u8>)>,
        fails: Vec<u64>,
    ) -> Result<ShelfMem, Memory>
        ensures made { IfOk result (λ s. s ≡ new_shelf (files_of files.items) fails.items) }
        ensures holds { IfOk result (λ s. ⟦<ShelfMem as Shelf>⟧.holds s ≡ Some (files_of files.items)) }
        ensures faults { IfOk result (λ s. (name : List ℕ) → ⟦<ShelfMem as Shelf>⟧.faults s name ≡ 0) }
        ensures starts { IfOk result (λ s. ⟦<ShelfMem as Shelf>⟧.starts s ≡ 0) }
    {
        let faults = vec![in alloc; 0; files.len() + 1]?;
        Ok(ShelfMem {
            files,
            started: None,
            at: 0,
            fails,
            calls: 0,
            starts: 0,
            faults,
        })
    }

    // Counts a call, and says whether it is to fail.
    fn next_fails(&mut self) -> bool
        ensures fails { IsTrue result ↔ (Contains self.old.fails self.old.calls) }
        ensures after { self.new ≡ called self.old }
    {
        let call = self.calls;
        self.calls = call.saturating_add(1);
        self.fails.contains(&call)
    }

    // Counts a call that is a start, and says whether it is to fail.
    fn next_start_fails(&mut self) -> bool
        ensures fails { IsTrue result ↔ (Contains self.old.fails self.old.calls) }
        ensures after { self.new ≡ begun self.old }
    {
        self.starts = self.starts.saturating_add(1);
        self.next_fails()
    }

    // Counts a fault at the place of a name.
    fn count_fault(&mut self, place: usize)
        requires { place ≤ length self.old.files }
        ensures after { self.new ≡ after_fault self.old place }
        ensures rose { Rose (slice_index self.old.faults place) (slice_index self.new.faults place) }
        ensures kept { (other : ℕ) → slice_index self.old.faults other ≤ slice_index self.new.faults other }
    {
        let count = &mut self.faults[place];
        *count = count.saturating_add(1);
    }

    // Starts the file at this place.
    fn begin(&mut self, place: usize)
        requires { place < length self.old.files }
        ensures { self.new
            ≡ record self.old { started = Some place; left = started_bytes self.old.files (Some place) } }
    {
        self.started = Some(place);
        self.at = 0;
    }

    // The bytes of the started file.
    fn bytes(&self) -> &[u8]
        ensures { result.now ≡ started_bytes self.now.files self.now.started }
    {
        match self.started {
            Some(place) => self.files[place].1.as_slice(),
            None => &[],
        }
    }

    // Copies the next bytes of the started file to the buffer, as many as there are and fit.
    fn copy_next(&mut self, buf: &mut [u8]) -> usize
        ensures amount { result ≡ min (length self.old.left) (length buf.old) }
        ensures bytes { buf.new ≡ take result self.old.left ++ drop result buf.old }
        ensures after { self.new ≡ record self.old { left = drop result self.old.left } }
    {
        let end = copy_from(buf, self.bytes(), self.at);
        let count = end - self.at;
        self.at = end;
        count
    }
}

// The place of the first file of this name, if there is one.
fn found_place(files: &[(String, Vec<u8>)], name: &str) -> Option<usize>
    ensures { result ≡ position (λ file. bytes_eq (string_bytes file.0) name.now) files.now }
{
    files.iter().position(|file| file.0.as_str() == name)
}

// The same, or else the place past the last.
fn file_place(files: &[(String, Vec<u8>)], name: &str) -> usize
    ensures place { result ≡ file_place (files_of files.now) name.now }
    ensures within { result ≤ length files.now }
    ensures none { (length files.now ≤ result) ↔ (content_of (files_of files.now) name.now ≡ None) }
    ensures content { bytes_of (files_of files.now) name.now ≡ started_bytes (files_of files.now) (Some result) }
{
    found_place(files, name).unwrap_or(files.len())
}

// Copies the bytes from this one on to the buffer, as many as there are and fit, and answers where it stopped.
pub(crate) fn copy_from(buf: &mut [u8], bytes: &[u8], at: usize) -> usize
    requires { at ≤ length bytes.now }
    ensures end { result ≡ min (length bytes.now) (at + length buf.old) }
    ensures copied { buf.new ≡ take (result - at) (drop at bytes.now) ++ drop (result - at) buf.old }
{
    let end = bytes.len().min(at.saturating_add(buf.len()));
    buf[..end - at].copy_from_slice(&bytes[at..end]);
    end
}

impl Shelf for ShelfMem {
    ghost holds = { λ s. Some s.files };

    ghost left = { λ s. Some s.left };

    ghost At = { IsAt };

    ghost faults = { faults_at };

    ghost starts = { λ s. s.starts };

    fn start(&mut self, name: &str) -> Result<(), Failed>
        ensures fails { IsErr result ↔ RefusesStart self.old name.now }
        ensures after { self.new ≡ after_start self.old name.now result }
        // With these, all that the trait ensures.
        ensures started { OnOk result (IsAt self.new name.now) }
        ensures kept { OnErr result ((other : List ℕ) → IsAt self.old other → IsAt self.new other) }
        ensures cause { OnErr result (Rose (faults_at self.old name.now) (faults_at self.new name.now)) }
        ensures counts { (other : List ℕ) → faults_at self.old other ≤ faults_at self.new other }
        ensures begun { self.new.starts ≡ raised self.old.starts }
    {
        let place = file_place(self.files.as_slice(), name);
        if self.next_start_fails() || place == self.files.len() {
            self.count_fault(place);
            return Err(Failed);
        }
        self.begin(place);
        Ok(())
    }

    fn read(&mut self, name: &str, buf: &mut [u8]) -> Result<usize, Failed>
        requires started { IsAt self.old name.now }
        requires room { 0 < length buf.old }
        ensures fails { IsErr result ↔ (Contains self.old.fails self.old.calls) }
        ensures bytes { IfOk result (λ k. buf.new ≡ take k self.old.left ++ drop k buf.old) }
        ensures amount { IfOk result (λ k. k ≡ min (length self.old.left) (length buf.old)) }
        ensures after { self.new ≡ after_read self.old name.now result }
        // With these, all that the trait ensures.
        ensures cause { OnErr result (Rose (faults_at self.old name.now) (faults_at self.new name.now)) }
        ensures counts { (other : List ℕ) → faults_at self.old other ≤ faults_at self.new other }
        ensures begun { self.new.starts ≡ self.old.starts }
    {
        let place = file_place(self.files.as_slice(), name);
        if self.next_fails() {
            self.count_fault(place);
            return Err(Failed);
        }
        Ok(self.copy_next(buf))
    }
}

ghost use Rattle.std.specs.Prelude.{◌≡◌, [], IfOk};
ghost use Rattle.hg_io.specs.FilesOf.{files_of};
ghost use Rattle.hg_top.specs.Printing.{status_code};
ghost use Rattle.check_cases.specs.Runs.{IsFrontOfLine, MayEnd};

use hg_check::Outcome;
use hg_io::{DiskMem, Gate, ShelfMem, SinkMem};
use hg_model::Memory;
use hg_top::{Status, hashgraph};
use std::alloc::Global;
use std::sync::Wait;
use std::thread::Threads;

/// More bytes than any case writes.
const ROOM: usize = 1_048_576;

/// More bytes than any case keeps on a disk: none of them does.
const DISK_ROOM: usize = 1024;

/// A run that ended.
#[derive(Drop)]
pub struct Played {
    pub status: Status,
    pub out: SinkMem,
    pub err: SinkMem,
}

impl Played {
    pub fn outcome(&self) -> Outcome<'_>
        ensures status { result.status ≡ status_code self.now.status }
        ensures stdout { result.stdout.now ≡ self.now.out.bytes }
        ensures stderr { result.stderr.now ≡ self.now.err.bytes }
    {
        Outcome {
            status: self.status.code(),
            stdout: self.out.bytes(),
            stderr: self.err.bytes(),
        }
    }
}

/// A sink that takes all that a run writes.
fn sink(alloc: Global) -> Result<SinkMem, Memory>
    ensures { IfOk result (λ sink. sink.bytes ≡ []) }
{
    SinkMem::new(alloc, ROOM, ROOM, Vec::new(alloc))
}

/// Runs the program with these words, its name first, where these files lie and a disk is empty, at a gate.
pub fn play<R: Threads + Wait + Sync, G: Gate + Sync>(
    rt: &R,
    alloc: Global,
    words: &[String],
    files: Vec<(String, Vec<u8>)>,
    gate: &G,
) -> Result<Played, Memory>
    ensures ends { IfOk result (λ played. MayEnd words.now (files_of files.items) played.status played.out.bytes) }
    ensures told { IfOk result (λ played. IsFrontOfLine played.status played.err.bytes) }
{
    let mut shelf = ShelfMem::new(alloc, files, Vec::new(alloc))?;
    let mut disk = DiskMem::new(alloc, DISK_ROOM, Vec::new(alloc))?;
    let mut out = sink(alloc)?;
    let mut err = sink(alloc)?;
    let status = hashgraph(
        rt, alloc, words, &mut shelf, &mut disk, &mut out, &mut err, gate,
    );
    Ok(Played { status, out, err })
}

ghost use Rattle.std.specs.Prelude.{◌≡◌, ◌≤◌, ◌⊎◌, ℕ, List, IfOk, OnErr, length, take};
ghost use Rattle.std.specs.Option.{ForSome};
ghost use Rattle.hg_io.specs.Faults.{Rose};
ghost use Rattle.hg_io.specs.FileView.{IsFilled, Stays};

use crate::disk::Disk;
use crate::failed::Failed;
use hg_model::{Bytes, Memory};
use std::alloc::Global;

/// Reads all bytes of the file, as it reads. The outer error is want of memory, the inner one the disk's.
pub fn read_all<D: Disk>(
    alloc: Global,
    disk: &mut D,
    name: &str,
) -> Result<Result<Bytes, Failed>, Memory>
    requires { D.At disk.old name.now }
    ensures bytes { IfOk result (λ read. IfOk read (λ all. ForSome (D.file disk.old).reads (λ bytes. all ≡ bytes))) }
    ensures cause { IfOk result (λ read. OnErr read (Rose (D.faults disk.old name.now) (D.faults disk.new name.now))) }
    ensures stays { Stays (D.file disk.old) (D.file disk.new) }
    ensures started { D.At disk.new name.now }
    ensures counts { (other : List ℕ) → D.faults disk.old other ≤ D.faults disk.new other }
{
    let Ok(size) = disk.size(name) else {
        return Ok(Err(Failed));
    };
    let mut bytes = vec![in alloc; 0; size as usize]?;
    let Ok(count) = fill(disk, name, bytes.as_mut_slice()) else {
        return Ok(Err(Failed));
    };
    bytes.truncate(count);
    Ok(Ok(Bytes::from_vec(bytes)))
}

// Fills the buffer with the first bytes of the file, as many as there are and fit, and answers how many.
fn fill<D: Disk>(disk: &mut D, name: &str, buf: &mut [u8]) -> Result<usize, Failed>
    requires { D.At disk.old name.now }
    ensures within { IfOk result (λ k. k ≤ length buf.new) }
    ensures filled { IfOk result (λ k. ForSome (D.file disk.old).reads (IsFilled k buf.new)) }
    ensures stays { Stays (D.file disk.old) (D.file disk.new) }
    ensures started { D.At disk.new name.now }
    ensures cause { OnErr result (Rose (D.faults disk.old name.now) (D.faults disk.new name.now)) }
    ensures counts { (other : List ℕ) → D.faults disk.old other ≤ D.faults disk.new other }
{
    let mut at = 0;
    'pieces: while at < buf.len() {
        let count = disk.read(name, at as u64, &mut buf[at..])?;
        if count == 0 {
            return Ok(at);
        }
        at += count;
    }
    Ok(at)
}

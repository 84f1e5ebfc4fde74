ghost use Rattle.std.specs.Prelude.{◌≡◌, ◌+◌, ◌<◌, ◌≤◌, ◌^◌, ℕ, List, IfOk, OnErr, drop, length, take};
ghost use Rattle.std.specs.Option.{ForSome};
ghost use Rattle.hg_io.specs.Faults.{Rose};
ghost use Rattle.hg_io.specs.FileView.{IsFilled, Stays};

use hg_io::{Disk, Failed};

/// Fills the buffer with the bytes of the file from the place `at` on, as many as there are and fit, and answers how many.
pub(crate) fn fill_from<D: Disk>(
    disk: &mut D,
    name: &str,
    at: u64,
    buf: &mut [u8],
) -> Result<usize, Failed>
    requires started { D.At disk.old name.now }
    requires small { at + length buf.old < 2 ^ 64 }
    ensures within { IfOk result (λ k. k ≤ length buf.new) }
    ensures filled { IfOk result (λ k. ForSome (D.file disk.old).reads (λ bytes. IsFilled k buf.new (drop at bytes))) }
    ensures stays { Stays (D.file disk.old) (D.file disk.new) }
    ensures started { D.At disk.new name.now }
    ensures cause { OnErr result (Rose (D.faults disk.old name.now) (D.faults disk.new name.now)) }
    ensures counts { (other : List ℕ) → D.faults disk.old other ≤ D.faults disk.new other }
{
    let mut count = 0;
    'pieces: while count < buf.len() {
        let more = disk.read(name, at + count as u64, &mut buf[count..])?;
        if more == 0 {
            return Ok(count);
        }
        count += more;
    }
    Ok(count)
}

ghost use Rattle.std.specs.Prelude.{◌≡◌, ◌+◌, ◌<◌, ◌≤◌, ◌^◌, ℕ, List, IfOk, OnErr, drop, length};
ghost use Rattle.std.specs.Option.{ForSome};
ghost use Rattle.hg_io.specs.Faults.{Rose};
ghost use Rattle.hg_io.specs.FileView.{Stays};

use crate::filling::fill_from;
use hg_io::{Disk, Failed};

/// How many bytes a gate and the beginning of a record have.
const FRONT: usize = 4;

/// How many bytes a body has at most.
pub(crate) const BODY: usize = 65_535;

/// What stands at a place where a gate must stand.
#[derive(Clone, Copy, Debug, PartialEq, Eq)]
pub enum Ahead {
    /// A closed gate.
    Closed,
    /// An open gate, and a record of this kind whose body has so many bytes.
    Record(u8, u16),
    /// No gate, or an open one without a whole record.
    Nothing,
}

impl Ahead {
    ghost use Rattle.hg_journal.specs.Ahead.{IsAhead, IsAheadOf};

    // By the first four bytes there, or all of fewer.
    fn of(four: &[u8]) -> Ahead
        requires { length four.now ≤ 4 }
        ensures { IsAheadOf four.now result }
    {
        match four {
            [] => Ahead::Nothing,
            [0, ..] => Ahead::Closed,
            [_, kind, a, b] => { Ahead::Record(*kind, u16::from_be_bytes([*a, *b])) }
            _ => Ahead::Nothing,
        }
    }

    /// What stands at this place of the file. The body of a record comes to the front of the buffer.
    pub(crate) fn read<D: Disk>(
        disk: &mut D,
        name: &str,
        at: u64,
        buf: &mut [u8],
    ) -> Result<Ahead, Failed>
        requires started { D.At disk.old name.now }
        requires small { at < 2 ^ 63 }
        requires room { 65535 ≤ length buf.old }
        ensures ahead { IfOk result (λ a. ForSome (D.file disk.old).reads (λ bytes. IsAhead (drop at bytes) buf.new a)) }
        ensures stays { Stays (D.file disk.old) (D.file disk.new) }
        ensures started { D.At disk.new name.now }
        ensures cause { OnErr result (Rose (D.faults disk.old name.now) (D.faults disk.new name.now)) }
        ensures counts { (other : List ℕ) → D.faults disk.old other ≤ D.faults disk.new other }
    {
        let mut four = [0; FRONT];
        let count = fill_from(disk, name, at, &mut four)?;
        let ahead = Ahead::of(&four[..count]);
        let Ahead::Record(_, size) = ahead else {
            return Ok(ahead);
        };
        let size = usize::from(size);
        let count = fill_from(disk, name, at + FRONT as u64, &mut buf[..size])?;
        if count < size {
            return Ok(Ahead::Nothing);
        }
        Ok(ahead)
    }
}

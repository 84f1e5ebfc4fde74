//! A file of the machine as a disk: written, and read again by another.

use crate::telling::equal;
use hg_io::{Disk, Failed, put_down, read_all};
use hg_model::Items;
use hg_stream::RealDisk;
use std::alloc::Global;
use std::rt::Files;
use std::test::Fail;

const NAME: &str = "journal";

// Writes two pieces, one over the end of the other.
fn write<R: Files>(files: &R) -> Result<(), Failed> {
    let mut disk = RealDisk::new(files);
    disk.start(NAME)?;
    put_down(&mut disk, NAME, 0, b"seven b")?;
    put_down(&mut disk, NAME, 6, b"bytes")
}

fn size<R: Files>(files: &R) -> Result<u64, Failed> {
    let mut disk = RealDisk::new(files);
    disk.start(NAME)?;
    disk.size(NAME)
}

// Reads at this place, into four bytes.
fn read_at<R: Files>(files: &R, at: u64, buf: &mut [u8; 4]) -> Result<usize, Failed> {
    let mut disk = RealDisk::new(files);
    disk.start(NAME)?;
    disk.read(NAME, at, buf)
}

fn bytes<R: Files>(files: &R, alloc: Global) -> Result<Items<u8>, Fail> {
    let mut disk = RealDisk::new(files);
    if disk.start(NAME).is_err() {
        return Err("no start".into());
    }
    match read_all(alloc, &mut disk, NAME)? {
        Ok(bytes) => Ok(bytes),
        Err(Failed) => Err("a fault".into()),
    }
}

#[test]
fn reads_a_written_file_again(rt: HostRuntime) -> Result<(), Fail> {
    equal(&rt, 0, write(&rt), Ok(()));
    equal(&rt, 1, size(&rt), Ok(11));
    let mut buf = [0; 4];
    equal(&rt, 2, read_at(&rt, 9, &mut buf), Ok(2));
    assert!(rt; buf.starts_with(b"es"));
    equal(&rt, 3, read_at(&rt, 11, &mut buf), Ok(0));
    let all = bytes(&rt, rt.alloc())?;
    assert!(rt; all.as_slice() == b"seven bytes".as_slice());
    Ok(())
}

#[test]
fn a_folder_is_no_file_to_write_to(rt: HostRuntime) -> Result<(), Fail> {
    equal(&rt, 0, RealDisk::new(&rt).start("."), Err(Failed));
    Ok(())
}

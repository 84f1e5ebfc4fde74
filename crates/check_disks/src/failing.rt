//! Files of the machine of which one opens, and then fails at each call: a disk and a shelf over them tell each fault.

ghost use Rattle.std.specs.Prelude.{IsErr};

use crate::telling::equal;
use hg_io::{Disk, Failed, Shelf};
use hg_stream::{RealDisk, RealShelf};
use std::alloc::Allocator;
use std::fs::{Metadata, OpenFile, OpenOptions};
use std::io;
use std::io::{ErrorKind, Read, Seek, SeekFrom, Write};
use std::rt::Files;
use std::test::Fail;

const NAME: &str = "journal";

/// What a call that fails answers.
fn fault<T>() -> io::Result<T>
    ensures { IsErr result }
{
    Err(io::Error::from(ErrorKind::Other))
}

/// An open file that is broken.
#[derive(Drop)]
struct Broken;

impl Read for Broken {
    fn read(&mut self, _buf: &mut [u8]) -> io::Result<usize> {
        fault()
    }
}

impl Write for Broken {
    fn write(&mut self, _buf: &[u8]) -> io::Result<usize> {
        fault()
    }

    fn flush(&mut self) -> io::Result<()> {
        fault()
    }
}

impl Seek for Broken {
    fn seek(&mut self, _to: SeekFrom) -> io::Result<u64> {
        fault()
    }
}

impl OpenFile for Broken {
    fn metadata(&self) -> io::Result<Metadata> {
        fault()
    }

    fn set_len(&self, _size: u64) -> io::Result<()> {
        fault()
    }

    fn sync_all(&self) -> io::Result<()> {
        fault()
    }

    fn sync_data(&self) -> io::Result<()> {
        fault()
    }
}

/// Files of which only the broken one opens.
struct BrokenFiles;

impl Files for BrokenFiles {
    type File = Broken;

    type Dir = Broken;

    fn open_file(&self, _how: &OpenOptions, path: &str) -> io::Result<Broken> {
        if path == NAME { Ok(Broken) } else { fault() }
    }

    fn open_dir(&self, _path: &str) -> io::Result<Broken> {
        fault()
    }

    fn metadata(&self, _path: &str) -> io::Result<Metadata> {
        fault()
    }

    fn symlink_metadata(&self, _path: &str) -> io::Result<Metadata> {
        fault()
    }

    fn copy(&self, _from: &str, _to: &str) -> io::Result<u64> {
        fault()
    }

    fn rename(&self, _from: &str, _to: &str) -> io::Result<()> {
        fault()
    }

    fn remove_file(&self, _path: &str) -> io::Result<()> {
        fault()
    }

    fn create_dir(&self, _path: &str) -> io::Result<()> {
        fault()
    }

    fn remove_dir(&self, _path: &str) -> io::Result<()> {
        fault()
    }

    fn remove_dir_all<B: Allocator>(&self, _alloc: B, _path: &str) -> io::Result<()> {
        fault()
    }
}

#[test]
fn a_disk_tells_each_fault(rt: HostRuntime) -> Result<(), Fail> {
    let mut disk = RealDisk::new(&BrokenFiles);
    if disk.start(NAME).is_err() {
        return Err("no start".into());
    }
    equal(&rt, 0, disk.size(NAME), Err(Failed));
    equal(&rt, 1, disk.read(NAME, 0, &mut [0; 4]), Err(Failed));
    equal(&rt, 2, disk.write(NAME, 0, b"byte"), Err(Failed));
    equal(&rt, 3, disk.sync(NAME), Err(Failed));
    // The first file is still open.
    equal(&rt, 4, disk.start("another"), Err(Failed));
    Ok(())
}

#[test]
fn a_shelf_tells_each_fault(rt: HostRuntime) -> Result<(), Fail> {
    let mut shelf = RealShelf::new(&BrokenFiles);
    if shelf.start(NAME).is_err() {
        return Err("no start".into());
    }
    equal(&rt, 0, shelf.read(NAME, &mut [0; 4]), Err(Failed));
    equal(&rt, 1, shelf.start("another"), Err(Failed));
    Ok(())
}

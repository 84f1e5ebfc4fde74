//! Sources: one in memory, and a shelf whose started file is read as one.

use crate::telling::equal;
use hg_io::{Shelf, ShelfMem, Source, SourceMem, Started};
use std::alloc::Global;
use std::test::Fail;

// How many bytes each read of a buffer of four bytes gives, one after the other, or None where it fails.
fn counts<S: Source>(source: &mut S) -> [Option<usize>; 4] {
    let mut found = [None; 4];
    for count in found.iter_mut() {
        let mut buf = [0; 4];
        *count = source.read(&mut buf).ok();
    }
    found
}

fn fails_at(alloc: Global, call: u64) -> Result<Vec<u64>, Fail> {
    Ok(Vec::from_slice(alloc, &[call])?)
}

#[test]
fn reads_a_source_to_its_end(rt: HostRuntime) -> Result<(), Fail> {
    let alloc = rt.alloc();
    let bytes = Vec::from_slice(alloc, b"seven b")?;
    let mut source = SourceMem::new(bytes, 64, fails_at(alloc, 1)?);
    let found = counts(&mut source);
    equal(&rt, 0, found, [Some(4), None, Some(3), Some(0)]);
    let bytes = Vec::from_slice(alloc, b"seven b")?;
    let mut source = SourceMem::new(bytes, 3, Vec::new(alloc));
    let found = counts(&mut source);
    equal(&rt, 1, found, [Some(3), Some(3), Some(1), Some(0)]);
    Ok(())
}

#[test]
fn reads_a_started_file_as_a_source(rt: HostRuntime) -> Result<(), Fail> {
    let alloc = rt.alloc();
    let mut files = Vec::new(alloc);
    files.push((
        String::from_str(alloc, "rows")?,
        Vec::from_slice(alloc, b"seven b")?,
    ))?;
    // The start is call 0.
    let mut shelf = ShelfMem::new(alloc, files, fails_at(alloc, 2)?)?;
    if shelf.start("rows").is_err() {
        return Err("no start".into());
    }
    let mut source = Started::new(shelf, "rows");
    let found = counts(&mut source);
    equal(&rt, 0, found, [Some(4), None, Some(3), Some(0)]);
    drop(source.into_shelf());
    Ok(())
}

//! Shelves and sinks in memory, the two calls over them, pages, and faults in mid-stream.

use crate::telling::equal;
use hg_io::{Failed, FileAnswer, Gate, NoGate, Page, ShelfMem, SinkMem, read_file, write_all};
use hg_model::Memory;
use std::alloc::Global;
use std::test::Fail;

// As many bytes as two whole pieces of a read and some more.
const LONG: usize = 20_000;

/// A shelf of two files, each with its name, whose calls with these numbers fail.
pub(crate) fn shelf_of(
    alloc: Global,
    first: (&str, &[u8]),
    second: (&str, &[u8]),
    fails: Vec<u64>,
) -> Result<ShelfMem, Memory> {
    let mut files = Vec::new(alloc);
    for (name, bytes) in [first, second] {
        files.push((
            String::from_str(alloc, name)?,
            Vec::from_slice(alloc, bytes)?,
        ))?;
    }
    ShelfMem::new(alloc, files, fails)
}

/// A sink with room for all that a test writes to it, of which no call fails.
pub(crate) fn ample(alloc: Global) -> Result<SinkMem, Memory> {
    SinkMem::new(alloc, 65_536, 65_536, Vec::new(alloc))
}

/// A short file and a long one.
fn shelf(alloc: Global, fails: Vec<u64>) -> Result<ShelfMem, Memory> {
    let long = vec![in alloc; 7; LONG]?;
    shelf_of(
        alloc,
        ("members", b"two members"),
        ("script", long.as_slice()),
        fails,
    )
}

fn is_bytes(answer: &FileAnswer, bytes: &[u8]) -> bool {
    match answer {
        FileAnswer::Bytes(read) => read.as_slice() == bytes,
        _ => false,
    }
}

#[test]
fn reads_one_file_after_the_other(rt: HostRuntime) -> Result<(), Fail> {
    let alloc = rt.alloc();
    let long = vec![in alloc; 7; LONG]?;
    let mut files = shelf(alloc, Vec::new(alloc))?;
    let script = read_file(alloc, &mut files, "script", LONG)?;
    assert!(rt; is_bytes(&script, long.as_slice()));
    let members = read_file(alloc, &mut files, "members", usize::MAX)?;
    assert!(rt; is_bytes(&members, b"two members"));
    Ok(())
}

/// Whether the file is longer than this limit, as reading tells.
fn is_over(alloc: Global, files: &mut ShelfMem, name: &str, limit: usize) -> Result<bool, Memory> {
    let answer = read_file(alloc, files, name, limit)?;
    Ok(matches!(answer, FileAnswer::TooLong(most) if most == limit))
}

#[test]
fn keeps_the_limit(rt: HostRuntime) -> Result<(), Fail> {
    let alloc = rt.alloc();
    let mut files = shelf(alloc, Vec::new(alloc))?;
    equal(&rt, 0, is_over(alloc, &mut files, "members", 10)?, true);
    equal(
        &rt,
        1,
        is_over(alloc, &mut files, "script", LONG - 1)?,
        true,
    );
    equal(&rt, 2, is_over(alloc, &mut files, "script", 8192)?, true);
    equal(&rt, 3, is_over(alloc, &mut files, "script", 0)?, true);
    let exact = read_file(alloc, &mut files, "members", 11)?;
    assert!(rt; is_bytes(&exact, b"two members"));
    Ok(())
}

#[test]
fn a_missing_name_fails(rt: HostRuntime) -> Result<(), Fail> {
    let alloc = rt.alloc();
    let mut files = shelf(alloc, Vec::new(alloc))?;
    let answer = read_file(alloc, &mut files, "member", 100)?;
    assert!(rt; matches!(answer, FileAnswer::Failed));
    let members = read_file(alloc, &mut files, "members", 100)?;
    assert!(rt; is_bytes(&members, b"two members"));
    Ok(())
}

/// Which of two reads of the script fail where this call of the shelf does.
fn failing_reads(alloc: Global, call: u64) -> Result<[bool; 2], Memory> {
    let mut files = shelf(alloc, vec![in alloc; call]?)?;
    let first = read_file(alloc, &mut files, "script", LONG)?;
    let again = read_file(alloc, &mut files, "script", LONG)?;
    Ok([
        matches!(first, FileAnswer::Failed),
        matches!(again, FileAnswer::Failed),
    ])
}

// A start, three reads with bytes and one at the end: each fails in turn, and then none.
#[test]
fn each_call_fails_in_turn(rt: HostRuntime) -> Result<(), Fail> {
    for call in 0..6 {
        let fails = failing_reads(rt.alloc(), call as u64)?;
        equal(&rt, call, fails, [call < 5, call == 5]);
    }
    Ok(())
}

/// Whether the write of a text fails where this call of the sink does, which takes one byte a call, with the bytes before it
/// written.
fn is_cut_at(alloc: Global, text: &[u8], call: usize) -> Result<bool, Memory> {
    let mut sink = SinkMem::new(alloc, 100, 1, vec![in alloc; call as u64]?)?;
    let answer = write_all(&mut sink, text);
    let written = sink.bytes();
    Ok(answer == Err(Failed) && written.len() == call && text.starts_with(written))
}

// A sink that takes one byte a call fails at each call in turn.
#[test]
fn each_write_fails_in_turn(rt: HostRuntime) -> Result<(), Fail> {
    let text = b"node A events 0".as_slice();
    for call in 0..text.len() {
        equal(&rt, call, is_cut_at(rt.alloc(), text, call)?, true);
    }
    Ok(())
}

#[test]
fn writes_all_that_has_room(rt: HostRuntime) -> Result<(), Fail> {
    let alloc = rt.alloc();
    let mut sink = SinkMem::new(alloc, 8, 3, Vec::new(alloc))?;
    equal(&rt, 0, write_all(&mut sink, b"events"), Ok(()));
    equal(&rt, 1, write_all(&mut sink, b" 17"), Err(Failed));
    equal(&rt, 2, write_all(&mut sink, b""), Ok(()));
    assert!(rt; sink.bytes() == b"events 1".as_slice());
    NoGate.reach(1000);
    Ok(())
}

// 40 pieces of 250 bytes, and one that is longer than a page.
fn put_pieces(page: &mut Page, sink: &mut SinkMem, long: &[u8]) -> Result<(), Failed> {
    for number in 0..40 {
        page.put(sink, &[number; 250])?;
    }
    page.put(sink, long)?;
    page.put(sink, b"the end")?;
    page.send(sink)
}

/// The pieces one behind the other.
fn joined(alloc: Global, long: &[u8]) -> Result<Vec<u8>, Memory> {
    let mut bytes = Vec::new(alloc);
    for number in 0..40 {
        bytes.extend_from_slice(&[number; 250])?;
    }
    bytes.extend_from_slice(long)?;
    bytes.extend_from_slice(b"the end")?;
    Ok(bytes)
}

/// Whether the pieces fail where this call of the sink does, which takes 1,000 bytes a call, with a proper front of them
/// written.
fn is_front_at(alloc: Global, call: u64, long: &[u8], want: &[u8]) -> Result<bool, Memory> {
    let mut page = Page::new();
    let mut sink = SinkMem::new(alloc, 20_000, 1000, vec![in alloc; call]?)?;
    let answer = put_pieces(&mut page, &mut sink, long);
    let written = sink.bytes();
    Ok(answer == Err(Failed) && written.len() < want.len() && want.starts_with(written))
}

#[test]
fn a_page_goes_out_in_order(rt: HostRuntime) -> Result<(), Fail> {
    let alloc = rt.alloc();
    let long = vec![in alloc; 77; 5000]?;
    let want = joined(alloc, long.as_slice())?;
    let mut page = Page::new();
    let mut sink = ample(alloc)?;
    let answer = put_pieces(&mut page, &mut sink, long.as_slice());
    equal(&rt, 0, answer, Ok(()));
    assert!(rt; sink.bytes() == want.as_slice());
    Ok(())
}

// Pages of 4,000, 4,000 and 2,000 bytes, the long piece and the last page go out in 16 calls of at most 1,000 bytes.
#[test]
fn a_page_goes_out_up_to_a_fault(rt: HostRuntime) -> Result<(), Fail> {
    let alloc = rt.alloc();
    let long = vec![in alloc; 77; 5000]?;
    let want = joined(alloc, long.as_slice())?;
    for call in 0..16 {
        let is_front = is_front_at(alloc, call as u64, long.as_slice(), want.as_slice())?;
        equal(&rt, call, is_front, true);
    }
    Ok(())
}

// What a page held at a fault is not written by a later call.
#[test]
fn a_page_is_empty_after_a_fault(rt: HostRuntime) -> Result<(), Fail> {
    let alloc = rt.alloc();
    let mut page = Page::new();
    let mut sink = SinkMem::new(alloc, 100, 4, vec![in alloc; 1]?)?;
    equal(&rt, 0, page.put(&mut sink, b"node A events 0"), Ok(()));
    equal(&rt, 1, page.send(&mut sink), Err(Failed));
    equal(&rt, 2, page.send(&mut sink), Ok(()));
    assert!(rt; sink.bytes() == b"node".as_slice());
    Ok(())
}

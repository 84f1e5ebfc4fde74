use crate::pack::Pack;
use hg_check::{Outcome, Trouble};
use std::alloc::Global;

/// A case: what the program is run on, and what it must come to.
#[derive(Drop)]
pub struct Case<'a> {
    pub name: &'a str,
    /// The words of the command line, the program's name first.
    pub words: Vec<String>,
    /// The names and the bytes of the files that are there.
    pub files: Vec<(String, Vec<u8>)>,
    pub wanted: Outcome<'a>,
}

/// The line before a case: its name and status, how many words and files it has, and the lengths in bytes of what
/// the program must write.
#[derive(Clone, Copy)]
struct Head<'a> {
    status: u8,
    words: usize,
    files: usize,
    stdout: usize,
    stderr: usize,
    name: &'a str,
}

/// A number, a space and what follows.
fn number_in(text: &str) -> Option<(usize, &str)> {
    let (digits, rest) = text.split_once(' ')?;
    Some((digits.parse().ok()?, rest))
}

fn head_in(text: &str) -> Option<Head<'_>> {
    let (status, rest) = number_in(text)?;
    let (words, rest) = number_in(rest)?;
    let (files, rest) = number_in(rest)?;
    let (stdout, rest) = number_in(rest)?;
    let (stderr, name) = number_in(rest)?;
    Some(Head {
        status: u8::try_from(status).ok()?,
        words,
        files,
        stdout,
        stderr,
        name,
    })
}

/// So many words, behind the program's name.
fn read_words(alloc: Global, pack: &mut Pack<'_>, count: usize) -> Result<Vec<String>, Trouble> {
    let mut words = vec![in alloc; String::from_str(alloc, "hashgraph")?]?;
    for _ in 0..count {
        words.push(String::from_str(alloc, pack.text()?)?)?;
    }
    Ok(words)
}

/// The next file: a line with its length and its name, and its bytes.
fn read_file(alloc: Global, pack: &mut Pack<'_>) -> Result<(String, Vec<u8>), Trouble> {
    let (len, name) = number_in(pack.text()?).ok_or(Trouble::Broken)?;
    let bytes = pack.part(len).ok_or(Trouble::Broken)?;
    Ok((
        String::from_str(alloc, name)?,
        Vec::from_slice(alloc, bytes)?,
    ))
}

fn read_files(
    alloc: Global,
    pack: &mut Pack<'_>,
    count: usize,
) -> Result<Vec<(String, Vec<u8>)>, Trouble> {
    let mut files = Vec::new(alloc);
    for _ in 0..count {
        files.push(read_file(alloc, pack)?)?;
    }
    Ok(files)
}

/// The next case.
pub fn read_case<'a>(alloc: Global, pack: &mut Pack<'a>) -> Result<Case<'a>, Trouble> {
    let head = head_in(pack.text()?).ok_or(Trouble::Broken)?;
    let words = read_words(alloc, pack, head.words)?;
    let files = read_files(alloc, pack, head.files)?;
    let stdout = pack.part(head.stdout).ok_or(Trouble::Broken)?;
    let stderr = pack.part(head.stderr).ok_or(Trouble::Broken)?;
    Ok(Case {
        name: head.name,
        words,
        files,
        wanted: Outcome {
            status: head.status,
            stdout,
            stderr,
        },
    })
}

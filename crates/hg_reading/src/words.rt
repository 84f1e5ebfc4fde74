ghost use Rattle.std.specs.Prelude.{◌≡◌, ◌<◌, ◌∷◌, length, position, take, IfOk};
ghost use Rattle.std.specs.Str.Lines.{lines, strip_carriage_return};
ghost use Rattle.hg_script.specs.Words.{bytes_in};
ghost use Rattle.hg_script.specs.Script as spec;

use std::alloc::{AllocError, Global};

/// So many words are too many for every line of the table.
pub const MOST_WORDS: usize = 8;

fn is_blank(byte: u8) -> bool
    ensures { result ≡ spec.is_blank byte }
{
    byte == b' ' || byte == b'\t'
}

/// The words of a line, or the first `MOST_WORDS` of more.
pub fn words_of<'a>(alloc: Global, line: &'a [u8]) -> Result<Vec<&'a [u8]>, AllocError>
    ensures { IfOk result (λ words. bytes_in words.items ≡ take MOST_WORDS (spec.words_of line.now)) }
{
    line.split(|byte| is_blank(*byte))
        .filter(|part| !part.is_empty())
        .take(MOST_WORDS)
        .collect(alloc)
}

/// All words of a line.
pub fn all_words<'a>(alloc: Global, line: &'a [u8]) -> Result<Vec<&'a [u8]>, AllocError>
    ensures { IfOk result (λ words. bytes_in words.items ≡ spec.words_of line.now) }
{
    line.split(|byte| is_blank(*byte))
        .filter(|part| !part.is_empty())
        .collect(alloc)
}

fn without_return(line: &[u8]) -> &[u8]
    ensures { result.now ≡ strip_carriage_return line.now }
{
    match line {
        [front @ .., b'\r'] => front,
        _ => line,
    }
}

fn line_feed_in(rest: &[u8]) -> Option<usize>
    ensures { result ≡ position spec.is_line_feed rest.now }
{
    rest.iter().position(|byte| *byte == b'\n')
}

/// The first line, without its end, and what follows it.
#[tactic(auto, using(crate::proofs::LineLaws::lines_at, crate::proofs::LineLaws::lines_last))]
pub fn first_line(rest: &[u8]) -> (&[u8], &[u8])
    requires { 0 < length rest.now }
    ensures lines { lines rest.now ≡ result.0.now ∷ lines result.1.now }
    ensures shorter { length result.1.now < length rest.now }
{
    match line_feed_in(rest) {
        Some(end) => (without_return(&rest[..end]), &rest[end + 1..]),
        None => (rest, &rest[rest.len()..]),
    }
}

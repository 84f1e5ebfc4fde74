//! The words of a command line, as an environment hands out their bytes.

ghost use Rattle.std.specs.Prelude.{◌≤◌, IfOk, length};

use hg_model::Memory;
use hg_stream::words_of;
use std::alloc::Global;
use std::env::FillError;
use std::rt::Env;
use std::test::Fail;

/// A command line of the program's name and these bytes.
#[derive(Drop)]
struct OneWord {
    bytes: &'static [u8],
}

fn filled(bytes: &[u8], buf: &mut [u8]) -> Result<usize, FillError>
    ensures { IfOk result (λ n. n ≤ length buf.new) }
{
    if buf.len() < bytes.len() {
        return Err(FillError::TooLong);
    }
    buf[..bytes.len()].copy_from_slice(bytes);
    Ok(bytes.len())
}

impl Env for OneWord {
    fn arg(&self, i: usize, buf: &mut [u8]) -> Result<usize, FillError> {
        match i {
            0 => filled(b"hashgraph", buf),
            1 => filled(self.bytes, buf),
            _ => Err(FillError::NotPresent),
        }
    }

    fn var(&self, _name: &str, _buf: &mut [u8]) -> Result<usize, FillError> {
        Err(FillError::NotPresent)
    }

    fn var_at(&self, _i: usize, _buf: &mut [u8]) -> Result<usize, FillError> {
        Err(FillError::NotPresent)
    }
}

/// How many words a command line has, if each is text.
fn words_in(alloc: Global, bytes: &'static [u8]) -> Result<Option<usize>, Memory> {
    let words = words_of(&(OneWord { bytes }, alloc))?;
    Ok(words.map(|words| words.len()))
}

#[test]
fn a_word_that_is_not_text(rt: HostRuntime) -> Result<(), Fail> {
    assert_eq!(rt; words_in(rt.alloc(), b"\xff"), Ok(None));
    assert_eq!(rt; words_in(rt.alloc(), b"run\xc3"), Ok(None));
    assert_eq!(rt; words_in(rt.alloc(), b"run"), Ok(Some(2)));
    Ok(())
}

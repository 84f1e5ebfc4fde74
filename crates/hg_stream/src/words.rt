use hg_model::Memory;
use std::env;
use std::io::ErrorKind;
use std::rt::Env;

/// The words of the command line, the program's name first, if each is text.
pub fn words_of<R: Env + AllocGlobal>(rt: &R) -> Result<Option<Vec<String>>, Memory> {
    match env::args(rt) {
        Ok(words) => match words.collect(rt.alloc()) {
            Ok(words) => Ok(Some(words)),
            Err(_) => Err(Memory),
        },
        Err(error) => match error.kind() {
            ErrorKind::InvalidData => Ok(None),
            _ => Err(Memory),
        },
    }
}

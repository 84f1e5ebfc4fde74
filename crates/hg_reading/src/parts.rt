ghost use Rattle.std.specs.Prelude.{◌≡◌, IfOk};
ghost use Rattle.hg_script.specs.Argument as spec;
ghost use Rattle.hg_script.specs.Words.{bytes_in};

use std::alloc::{AllocError, Global};

pub fn is_comma(byte: u8) -> bool
    ensures { result ≡ spec.is_comma byte }
{
    byte == b','
}

/// The parts of a text between commas.
pub fn parts_of<'a>(alloc: Global, text: &'a [u8]) -> Result<Vec<&'a [u8]>, AllocError>
    ensures { IfOk result (λ parts. bytes_in parts.items ≡ spec.parts_of text.now) }
{
    text.split(|byte| is_comma(*byte)).collect(alloc)
}

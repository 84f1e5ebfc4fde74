//! The names of events: SHA-384 (FIPS 180-4, section 6.5) of all of an event's bytes.
//! A name can be written out as text and compared byte by byte; no call takes memory.
//! The layers above use that `name_of` is `sha384`, the word by which `Spells` of hg_life names a row.
//!
//! From `names_abc` in the tests of `check_bytes`:
//!
//! ```text
//! let text = name_hex(&name_of(b"abc"));
//! assert_eq!(rt;
//!     text.as_slice(),
//!     b"cb00753f45a35e8bb5a03d699ac65007272c32ab0eded1631a8b605a43ff5bed8086072ba1e7cc2358baeca134c825a7".as_slice()
//! );
//! ```
#![tactic(auto)]

ghost use Rattle.std.specs.Prelude.{◌≡◌};
ghost use Rattle.std.specs.Ordering.{nat_cmp};
ghost use Rattle.std.specs.Cmp.Lexicographic.{slice_cmp};
ghost use Rattle.sha2.specs.Sha512.{sha384};
ghost use Rattle.hex.specs.Hex.{encode_lower};

use hg_model::Name;
use sha2::{Digest, Sha384};
use std::cmp::Ordering;

/// The name of an event with these bytes, those of its signature included.
pub fn name_of(bytes: &[u8]) -> Name
    ensures { result ≡ sha384 bytes.now }
{
    Sha384::digest(bytes)
}

/// The name as 96 lower-case hexadecimal digits.
pub fn name_hex(name: &Name) -> [u8; 96]
    ensures { result ≡ encode_lower name.now }
{
    let mut text = [0; 96];
    hex::encode_to_slice(name.as_slice(), &mut text).unwrap();
    text
}

/// How the names compare: by the first byte in which they differ.
pub fn cmp_names(a: &Name, b: &Name) -> Ordering
    ensures { result ≡ slice_cmp nat_cmp a.now b.now }
{
    a.cmp(b)
}

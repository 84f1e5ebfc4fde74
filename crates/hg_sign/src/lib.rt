//! Signatures: what checks them, what makes them, an event's bytes under one, and the program's own, by the members' secrets.
//! A signer is told by the test `accepts`, of which nothing else is supposed, so that any scheme can take its place.
//! The layers above use that `check` is `accepts`, and that `accepts` takes what `sign` gives.
//!
//! From `signs_for_members` in the tests of `check_bytes`, shortened:
//!
//! ```text
//! let table = MacTable::new(rt.alloc(), &two_members(&rt, rt.alloc())?)?;
//! let sig = table.sign(0, b"Hi There");
//! assert_eq!(rt; sig.as_slice(), FIRST_MAC.as_slice());
//! assert!(rt; table.check(0, b"Hi There", &sig));
//! assert!(rt; !table.check(1, b"Hi There", &sig));
//! ```
#![tactic(auto)]

mod key;
mod laws;
mod shared;
mod signed;
mod signer;
mod table;

pub use laws::one_signature;
pub use shared::SharedTable;
pub use signed::{SignedBytes, signed_bytes};
pub use signer::{Signer, Verifier};
pub use table::MacTable;

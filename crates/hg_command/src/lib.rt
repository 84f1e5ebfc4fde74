//! The command line, read by the kit's `clap`: what the words ask for, if they are accepted.
//! The layer above uses `read_words`, which answers `request_of` the words, a definition over clap's own.
//! A command is one of the list `commands` in `specs/Asked.antt`: its name, its options and what it asks for by them. In Rust
//! it is a row of `COMMANDS` in `line`, a case of `Request` and a reader of it in `request`, and its ranges in `keeps_ranges`. What a case
//! holds is a struct, which the layer above hands on as it is.
//!
//! From `names_are_handed_over` in the tests of `check_program`, where bars part the words:
//!
//! ```text
//! let words = words_of(rt.alloc(), "run|--script=a b|--workers|0|--members|m.toml")?;
//! let request = read_words(rt.alloc(), words.as_slice())?;
//! let wanted = Request::Run(RunRequest {
//!     members: "m.toml",
//!     script: "a b",
//!     workers: 0,
//! });
//! assert_eq!(rt; request, Some(wanted));
//! ```
#![tactic(auto)]

mod line;
mod request;
mod words;

pub use request::{
    CheckRequest, KeepRequest, MakeRequest, NodeRequest, Request, RunRequest, StormRequest,
};
pub use words::read_words;

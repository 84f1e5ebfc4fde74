//! The parts of the report's text: a piece of a line, what is told of an answer, and the block of a node. The layer above
//! puts them on a page before a sink, by `write_pieces` and `write_block`, and prints pieces alone by `print_pieces`.
//! `piece_text` in `specs/Pieces.antt` says which text a piece is.
//!
//! From `write_total` of `hg_report`:
//!
//! ```text
//! write_pieces(
//!     page,
//!     sink,
//!     &[
//!         Piece::Bytes(b"total "),
//!         Piece::Wide(total),
//!         Piece::Bytes(b"\n"),
//!     ],
//! )
//! ```
#![tactic(auto)]

mod block;
mod phrases;
mod pieces;

pub use block::{effect_pieces, write_block, write_head};
pub use phrases::{
    Phrase, fault_parts, make_answer_phrase, make_fault_parts, number_phrase, put_answer_phrase,
    sync_made_phrase,
};
pub use pieces::{Piece, print_pieces, write_pieces};

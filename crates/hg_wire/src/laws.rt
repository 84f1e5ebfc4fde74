ghost use Rattle.std.specs.Prelude.{IfOk};
ghost use Rattle.std.specs.List.{flat_map};
ghost use Rattle.hg_wire.specs.Exchange.{AnswersFit, AsksFit, AsksNameHeld, ExchangesHold};
ghost use Rattle.hg_wire.specs.Reading.{read};
ghost use Rattle.hg_wire.specs.Laws.{ArePrefixFree, Ends, IsFirst, MessagesAreRead, ReadsAreMessages, ReadsStand, Says};

use crate::ear::Ear;
use crate::hearing::are_bytes;
use crate::message::{Fed, Want};
use hg_model::Memory;
use std::alloc::Global;

/// A law: what is read is a message, a message is read whatever follows it, none begins another, and what was read of
/// the bytes that came stands whatever bytes come.
pub fn messages()
    ensures found { ReadsAreMessages }
    ensures read { MessagesAreRead }
    ensures prefix_free { ArePrefixFree }
    ensures stand { ReadsStand }
{}

/// A law: what a node says that asks, and what it answers, fits into messages.
pub fn exchanges_fit<K, L>()
    ensures asks { AsksFit K }
    ensures answers { AnswersFit L }
{}

/// A law: the names that are read of what a node asked are held by it; and after the message was taken that is read of
/// what a peer answered to names that the taker holds, each row of the peer is held by its name, or was refused at its
/// turn.
pub fn exchanges_hold<K, L>()
    ensures names { AsksNameHeld K }
    ensures rows { ExchangesHold K L }
{}

/// A law, over the calls of an ear: the first message of a stream that comes in these pieces, or its first fault, does
/// not depend on how it was cut. The number is that of the message's bytes in the piece in which it ends.
pub fn hear_all(alloc: Global, want: Want, pieces: &[Vec<u8>]) -> Result<Fed, Memory>
    ensures says { IfOk result (Says (read want (flat_map (λ piece. piece.items) pieces.now))) }
    ensures first { IfOk result (IsFirst want (flat_map (λ piece. piece.items) pieces.now)) }
    ensures ends { IfOk result (Ends want pieces.now) }
{
    hear_each(alloc, want, pieces)
}

/// The same, with the clauses from which the other follows.
fn hear_each(alloc: Global, want: Want, pieces: &[Vec<u8>]) -> Result<Fed, Memory>
    ensures says { IfOk result (Says (read want (flat_map (λ piece. piece.items) pieces.now))) }
    ensures ends { IfOk result (Ends want pieces.now) }
{
    let mut ear = Ear::new(alloc, want);
    for piece in pieces {
        let bytes = piece.as_slice();
        are_bytes(bytes);
        match ear.feed(bytes)? {
            Fed::More => {}
            Fed::Whole(message, used) => return Ok(Fed::Whole(message, used)),
            Fed::Refused(fault) => return Ok(Fed::Refused(fault)),
        }
    }
    Ok(Fed::More)
}

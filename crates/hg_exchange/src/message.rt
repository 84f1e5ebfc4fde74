ghost use Rattle.std.specs.Prelude.{◌≡◌, IfOk};
ghost use Rattle.hg_exchange.specs.Messages.{message_of, names_in};
ghost use Rattle.hg_wire.specs.Grammar.{Fits};

use hg_model::{Memory, Name};
use hg_wire::{Ear, Fed, Message, Want, WireFault, messages};
use std::alloc::Global;

/// What is wrong with a file that is to be one message, from its first byte to its last.
#[derive(Clone, Copy, Debug, PartialEq, Eq)]
pub enum MessageFault {
    /// The first field that is wrong.
    Wire(WireFault),
    /// The file ends behind so many bytes, which hold no fault and no whole message.
    Ended(usize),
    /// The message has so many bytes, and more follow.
    Trailing(usize),
}

/// The message of this kind that the bytes are, or the first fault.
pub fn read_message(
    alloc: Global,
    want: Want,
    bytes: &[u8],
) -> Result<Result<Message, MessageFault>, Memory>
    ensures exact { IfOk result (λ r. r ≡ message_of want bytes.now) }
    ensures fits { IfOk result (λ r. IfOk r (Fits want)) }
{
    messages();
    let mut ear = Ear::new(alloc, want);
    match ear.feed(bytes)? {
        Fed::More => Ok(Err(MessageFault::Ended(bytes.len()))),
        Fed::Whole(message, used) => {
            if used < bytes.len() {
                return Ok(Err(MessageFault::Trailing(used)));
            }
            Ok(Ok(message))
        }
        Fed::Refused(fault) => Ok(Err(MessageFault::Wire(fault))),
    }
}

/// The names of HAVE.
pub fn names_of(message: &Message) -> &[Name]
    ensures { result.now ≡ names_in message.now }
{
    match message {
        Message::Have(names) => names.as_slice(),
        Message::Rows(_) => &[],
    }
}

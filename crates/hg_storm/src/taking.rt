ghost use Rattle.std.specs.Prelude.{◌≡◌, ◌<◌, ◌++◌, ◌∷◌, [], IfOk, OnErr, OnOk, length, vec_capacity, vec_len};
ghost use Rattle.hg_board.specs.Seats.{IsOf};
ghost use Rattle.hg_crowd.specs.Crowd.{IsStill};
ghost use Rattle.hg_storm.specs.Fates.{HasFates, after_put};
ghost use Rattle.hg_storm.specs.Keeping.{AddsNoRow, KeepsSeat};
ghost use Rattle.hg_storm.specs.Receiving.{TakesNotAll};

use hg_board::{Seat, Shared};
use hg_life::{Fault, PutAnswer};
use hg_mail::Message;
use hg_model::Memory;
use hg_sign::Signer;
use std::alloc::Global;
use std::sync::Wait;

/// A message whose event the node refused.
#[derive(Clone, Copy, Debug, PartialEq, Eq)]
pub struct RefusedMessage {
    /// Its place among the messages that were taken, from 0.
    pub index: usize,
    pub why: Fault,
    /// How many changes the node had then.
    pub at: usize,
}

/// The messages that a node took, in order, and the refusals among them.
#[derive(Debug, Drop)]
pub struct Intake {
    pub taken: Vec<Message>,
    pub refused: Vec<RefusedMessage>,
}

impl Intake {
    /// Nothing. Takes no memory.
    pub fn new(alloc: Global) -> Intake
        ensures taken { result.taken.items ≡ [] }
        ensures refused { result.refused.items ≡ [] }
    {
        Intake {
            taken: Vec::new(alloc),
            refused: Vec::new(alloc),
        }
    }

    /// Writes down one more message, with what came of it where the node then had so many changes.
    fn note(&mut self, message: Message, answer: PutAnswer, at: usize)
        requires taken_room { vec_len self.old.taken < vec_capacity self.old.taken }
        requires refused_room { vec_len self.old.refused < vec_capacity self.old.refused }
        ensures taken { self.new.taken.items ≡ self.old.taken.items ++ message ∷ [] }
        ensures refused { self.new.refused.items ≡ after_put (length self.old.taken.items) at self.old.refused.items answer }
    {
        let index = self.taken.len();
        match answer {
            PutAnswer::Accepted(_) => {}
            PutAnswer::Known(_) => {}
            PutAnswer::Refused(why) => {
                let refused = RefusedMessage { index, why, at };
                self.refused.push_reserved(refused);
            }
        }
        self.taken.push_reserved(message);
    }
}

/// Takes one message. After `Memory` it is dropped.
fn take_one<V: Signer + Drop, R: Wait>(
    rt: &R,
    shared: &Shared<V>,
    seat: &mut Seat<V>,
    intake: &mut Intake,
    message: Message,
) -> Result<(), Memory>
    requires of { IsOf shared.now seat.old }
    requires fates { HasFates V.accepts shared.now seat.old intake.old.taken.items intake.old.refused.items }
    ensures of { IsOf shared.now seat.new }
    ensures still { IsStill seat.old seat.new }
    ensures seat { KeepsSeat V.accepts shared.now seat.old seat.new }
    ensures made { AddsNoRow seat.old seat.new }
    ensures fates { HasFates V.accepts shared.now seat.new intake.new.taken.items intake.new.refused.items }
    ensures taken { OnOk result (intake.new.taken.items ≡ intake.old.taken.items ++ message ∷ []) }
    ensures dropped { OnErr result (intake.new.taken.items ≡ intake.old.taken.items) }
{
    intake.taken.reserve(1)?;
    intake.refused.reserve(1)?;
    let (answer, at) = shared.put_at(rt, seat, message.bytes.as_slice());
    intake.note(message, answer?, at);
    Ok(())
}

/// Puts the events of messages into a node between threads, in order, and writes down what came of each. After `Memory` some
/// of the first of them are taken, and the others are dropped.
pub fn take_all<V: Signer + Drop, R: Wait>(
    rt: &R,
    shared: &Shared<V>,
    seat: &mut Seat<V>,
    intake: &mut Intake,
    messages: Vec<Message>,
) -> Result<(), Memory>
    requires of { IsOf shared.now seat.old }
    requires fates { HasFates V.accepts shared.now seat.old intake.old.taken.items intake.old.refused.items }
    ensures of { IsOf shared.now seat.new }
    ensures still { IsStill seat.old seat.new }
    ensures seat { KeepsSeat V.accepts shared.now seat.old seat.new }
    ensures made { AddsNoRow seat.old seat.new }
    ensures fates { HasFates V.accepts shared.now seat.new intake.new.taken.items intake.new.refused.items }
    ensures taken { OnOk result (intake.new.taken.items ≡ intake.old.taken.items ++ messages.items) }
    ensures lost { OnErr result (TakesNotAll intake.old.taken.items messages.items intake.new.taken.items) }
{
    'messages: for message in messages {
        take_one(rt, shared, seat, intake, message)?;
    }
    Ok(())
}

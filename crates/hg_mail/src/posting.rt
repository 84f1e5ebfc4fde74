ghost use Rattle.std.specs.Prelude.{◌≡◌, ◌+◌, ◌<◌, nat_le};
ghost use Rattle.crossbeam_queue.specs.Passes.{IsPassOf, IsSamePass, ruled_capacity, view};
ghost use Rattle.hg_mail.specs.Messages.{HasPort};
ghost use Rattle.hg_mail.specs.Mailboxes.{AnswersAt};

use crate::counting::{look, note_back, raise};
use crate::message::Message;
use crate::rule::{CountSeat, MailPass, Put, Queue, SharedCounter};
use std::sync::Wait;
use std::thread;

/// What comes of a message that is put into a mailbox.
#[derive(Drop)]
pub enum PostAnswer {
    Posted,
    /// There was no room for it: here it is.
    Full(Message),
}

/// Whether so many messages that were counted, without those that are gone, fill the room.
fn fills(room: u64, gone: u64, counted: u64) -> bool
    ensures { result ≡ nat_le (room + gone) counted }
{
    gone <= counted && room <= counted - gone
}

/// Puts a message in and counts it. A queue that is full may hold what is not counted yet: then it is tried again, until it
/// takes the message, or so many are counted, and not noted as taken out, as it has room for.
pub fn post_by<R: Wait>(
    rt: &R,
    queue: &Queue,
    counter: &SharedCounter,
    pass: &mut MailPass,
    seat: &mut CountSeat,
    message: Message,
) -> PostAnswer
    requires pass { IsPassOf queue.now pass.old }
    requires size { counter.now.table_id.words ≡ 2 }
    requires table { seat.old.table_id ≡ counter.now.table_id }
    requires room { seat.old.me.0.room ≡ ruled_capacity queue.now }
    requires sender { HasPort message.from (view pass.old) }
    requires part { 0 < seat.old.me.0.parts }
    ensures pass { IsSamePass pass.old pass.new }
    ensures seat { (seat.new.table_id ≡ seat.old.table_id) × (seat.new.me.1 ≡ seat.old.me.1) }
    ensures room { seat.new.me.0.room ≡ seat.old.me.0.room }
    ensures answers { AnswersAt (ruled_capacity queue.now) pass.old seat.old message result pass.new seat.new }
{
    let room = queue.capacity() as u64;
    let mut letter = message;
    'tries: for _ in rt.forever() {
        match queue.push_as::<Put, R>(rt, pass, letter) {
            Ok(()) => {
                raise(counter, seat);
                return PostAnswer::Posted;
            }
            Err(back) => {
                let counted = look(counter, seat);
                let gone = note_back(counter, seat);
                if fills(room, gone, counted) {
                    return PostAnswer::Full(back);
                }
                letter = back;
            }
        }
        // Another sender is about to count what it has put in, or the receiver to note what it has taken out.
        thread::yield_now();
    }
    unreachable!()
}

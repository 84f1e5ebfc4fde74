// How messages are taken out.
ghost use Rattle.std.specs.Prelude.{◌≡◌, ◌+◌, ◌<◌, ◌≤◌, true, [], ◌∷◌, IfNone, IfOk, IfSome, OnErr, OnOk, length, vec_capacity};
ghost use Rattle.crossbeam_queue.specs.Passes.{IsPassOf, IsSamePass, ruled_capacity, view};
ghost use Rattle.hg_mail.specs.Mailboxes.{CollectsAt};
ghost use Rattle.hg_mail.specs.Messages.{IsEmptied, IsWhole, KnowsSenders, TakesSome, after_taking};
ghost use Rattle.hg_mail.specs.Rule.{HeldAt};

use crate::counting::{begin, note_taken};
use crate::message::Message;
use crate::rule::{CountSeat, MailPass, Queue, SharedCounter, Take};
use hg_model::Memory;
use std::alloc::Global;
use std::sync::Wait;
use std::thread;

/// Takes out the oldest message, and counts it among those that are out.
fn take_one<R: Wait>(rt: &R, queue: &Queue, pass: &mut MailPass, out: &mut u64) -> Option<Message>
    requires pass { IsPassOf queue.now pass.old }
    requires takes { (view pass.old).takes ≡ true }
    ensures pass { IsSamePass pass.old pass.new }
    ensures some { IfSome result (λ m. view pass.new ≡ after_taking (view pass.old) (m ∷ [])) }
    ensures out { out.new ≤ out.old + 1 }
    ensures none { IfNone result ((view pass.new ≡ view pass.old) × (out.new ≡ out.old) × HeldAt (view pass.old) 0) }
{
    let message = queue.pop_as::<Take, R>(rt, pass)?;
    *out = out.saturating_add(1);
    Some(message)
}

/// Takes out messages, until so many are out as are due, or as many as there is room for.
fn take_most<R: Wait>(
    rt: &R,
    queue: &Queue,
    pass: &mut MailPass,
    taken: &mut Vec<Message>,
    out: &mut u64,
    due: u64,
)
    requires pass { IsPassOf queue.now pass.old }
    requires takes { (view pass.old).takes ≡ true }
    requires none { taken.old.items ≡ [] }
    requires space { ruled_capacity queue.now ≤ vec_capacity taken.old }
    ensures pass { IsSamePass pass.old pass.new }
    ensures view { view pass.new ≡ after_taking (view pass.old) taken.new.items }
    ensures most { length taken.new.items ≤ ruled_capacity queue.now }
    ensures out { out.new ≤ out.old + length taken.new.items }
    ensures fewer { length taken.new.items < ruled_capacity queue.now → due ≤ out.new }
{
    let room = queue.capacity();
    'tries: for _ in rt.forever() {
        if *out >= due || taken.len() >= room {
            return;
        }
        match take_one(rt, queue, pass, out) {
            Some(message) => taken.push_reserved(message),
            // What was counted is put in, and is about to be seen.
            None => thread::yield_now(),
        }
    }
}

/// The same into a new list, once the seat has noted that its port collects, which tells how many are due; then it notes how many
/// it has taken out.
pub fn collect_by<R: Wait>(
    rt: &R,
    alloc: Global,
    queue: &Queue,
    counter: &SharedCounter,
    pass: &mut MailPass,
    seat: &mut CountSeat,
    out: &mut u64,
) -> Result<Vec<Message>, Memory>
    requires pass { IsPassOf queue.now pass.old }
    requires size { counter.now.table_id.words ≡ 2 }
    requires table { seat.old.table_id ≡ counter.now.table_id }
    requires takes { (view pass.old).takes ≡ true }
    requires out { out.old ≤ length (view pass.old).taken }
    ensures pass { IsSamePass pass.old pass.new }
    ensures seat { (seat.new.table_id ≡ seat.old.table_id) × (seat.new.me.1 ≡ seat.old.me.1) }
    ensures out { out.new ≤ length (view pass.new).taken }
    ensures takes { (view pass.new).takes ≡ true }
    ensures collects { IfOk result (λ taken. CollectsAt (ruled_capacity queue.now) pass.old seat.old taken.items pass.new seat.new) }
    ensures err { OnErr result ((view pass.new ≡ view pass.old) × (seat.new.me ≡ seat.old.me)) }
{
    let mut taken = Vec::with_capacity(alloc, queue.capacity())?;
    let due = begin(counter, seat);
    take_most(rt, queue, pass, &mut taken, out, due);
    note_taken(counter, seat, taken.len() as u64);
    Ok(taken)
}

/// Takes out all, until the queue is empty. How many it holds is read first: by a pass with all rights so many are taken out.
pub fn drain_by<R: Wait>(
    rt: &R,
    alloc: Global,
    queue: &Queue,
    pass: &mut MailPass,
    out: &mut u64,
) -> Result<Vec<Message>, Memory>
    requires pass { IsPassOf queue.now pass.old }
    requires takes { (view pass.old).takes ≡ true }
    requires out { out.old ≤ length (view pass.old).taken }
    ensures pass { IsSamePass pass.old pass.new }
    ensures out { out.new ≤ length (view pass.new).taken }
    ensures view { IfOk result (λ left. view pass.new ≡ after_taking (view pass.old) left.items) }
    ensures known { OnOk result (KnowsSenders (view pass.new)) }
    ensures whole { OnOk result (IsEmptied (view pass.new)) }
    ensures room { IsWhole (view pass.old) → IfOk result (λ left. length left.items ≤ ruled_capacity queue.now) }
    ensures err { OnErr result (TakesSome (view pass.old) (view pass.new)) }
{
    queue.len_as::<Take, R>(rt, pass);
    let mut left = Vec::new(alloc);
    for _ in rt.forever() {
        left.reserve(1)?;
        match take_one(rt, queue, pass, out) {
            Some(message) => left.push_reserved(message),
            None => return Ok(left),
        }
    }
    unreachable!()
}

// The steps of a mailbox's counts.
ghost use Rattle.std.specs.Prelude.{◌≡◌, ◌<◌};
ghost use Rattle.hg_mail.specs.Count.{HasFound, HasLooked, HasRaised, coming_back, noting};

use crate::rule::{Back, Begin, CountSeat, Look, Note, Raise, SharedCounter};

/// The word of all messages that were ever put in and counted.
const COUNTED: usize = 0;

/// The word of those that are noted as taken out.
const GONE: usize = 1;

/// How many messages were counted.
pub fn look(counter: &SharedCounter, seat: &mut CountSeat) -> u64
    requires size { counter.now.table_id.words ≡ 2 }
    requires table { seat.old.table_id ≡ counter.now.table_id }
    ensures table { seat.new.table_id ≡ seat.old.table_id }
    ensures seat { HasLooked seat.old.me result seat.new.me }
{
    counter.load::<Look>(seat, COUNTED)
}

/// Counts one message more.
pub fn raise(counter: &SharedCounter, seat: &mut CountSeat)
    requires size { counter.now.table_id.words ≡ 2 }
    requires table { seat.old.table_id ≡ counter.now.table_id }
    requires part { 0 < seat.old.me.0.parts }
    ensures table { seat.new.table_id ≡ seat.old.table_id }
    ensures seat { HasRaised seat.old.me seat.new.me }
{
    counter.fetch_add::<Raise>(seat, COUNTED, 1);
}

/// How many messages are noted as taken out, where one has come back: the seat counts that it did, where the others fill the
/// room.
pub fn note_back(counter: &SharedCounter, seat: &mut CountSeat) -> u64
    requires size { counter.now.table_id.words ≡ 2 }
    requires table { seat.old.table_id ≡ counter.now.table_id }
    ensures table { seat.new.table_id ≡ seat.old.table_id }
    ensures seat { seat.new.me ≡ (coming_back seat.old.me.0 result, seat.old.me.1) }
{
    counter.load::<Back>(seat, GONE)
}

/// How many messages are counted where the seat's port collects, which it notes.
pub fn begin(counter: &SharedCounter, seat: &mut CountSeat) -> u64
    requires size { counter.now.table_id.words ≡ 2 }
    requires table { seat.old.table_id ≡ counter.now.table_id }
    ensures table { seat.new.table_id ≡ seat.old.table_id }
    ensures seat { HasFound seat.old.me result seat.new.me }
{
    counter.load::<Begin>(seat, COUNTED)
}

/// Notes so many messages as taken out.
pub fn note_taken(counter: &SharedCounter, seat: &mut CountSeat, taken: u64)
    requires size { counter.now.table_id.words ≡ 2 }
    requires table { seat.old.table_id ≡ counter.now.table_id }
    ensures table { seat.new.table_id ≡ seat.old.table_id }
    ensures seat { seat.new.me ≡ (noting seat.old.me.0 taken, seat.old.me.1) }
{
    counter.fetch_add::<Note>(seat, GONE, taken);
}

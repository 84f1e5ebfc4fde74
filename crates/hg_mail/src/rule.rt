// The rules of a mailbox's two halves, and what each kind of step tells its port.
ghost use Rattle.hg_mail.specs.Messages.{Puts, Takes, after_issue, after_hand, first_view, issued, handed, joined_view, spent_view};
ghost use Rattle.hg_mail.specs.Rule.{Delivers, IsAt};
ghost use Rattle.hg_mail.specs.Count.{Counts, after_part, begun, came_back, first_count, joined_count, looked, noted, one_part, raised, spent_count};

use crate::message::Message;
use crate::view::{CountView, View};
use atomic_table::{Play, Seat, Shared, Table, TableRule};
use crossbeam_queue::protocol::{Join, Lesson, Outcome, Protocol, Split};
use crossbeam_queue::{Pass, RuledArrayQueue};
use std::alloc::Global;

/// What was put in is what was taken out, and then what the queue holds.
pub struct Delivery;

impl Protocol<Message, View> for Delivery {
    ghost holds = { Delivers };

    ghost first = { first_view };
}

/// The queue of a mailbox.
pub type Queue = RuledArrayQueue<Message, View, Delivery>;

/// A port's token of the queue.
pub type MailPass = Pass<Message, View>;

/// The counts are what all ports have counted, and what they have noted as taken out; each collect found all that was counted
/// before it.
pub struct Counting;

impl TableRule<Option<u8>, CountView, usize> for Counting {
    ghost holds = { λ _. Counts };

    ghost first = { first_count };
}

/// The counts of a mailbox: a table of two words, without slots, for so much room.
pub type Counter = Table<Option<u8>, CountView, usize, Counting, Global>;

/// The counts as its ports share them.
pub type SharedCounter = Shared<Option<u8>, CountView, usize, Counting>;

/// A port's token of the counts.
pub type CountSeat = Seat<Option<u8>, CountView>;

/// A message is put in; where the queue is full, what is known of it then.
pub struct Put;

impl Outcome<Message, View> for Put {
    ghost then = { Puts };
}

impl Lesson<Message, View> for Put {
    ghost fact = { IsAt };
}

/// A message is taken out; where the queue is empty, what is known of it then.
pub struct Take;

impl Outcome<Message, View> for Take {
    ghost then = { Takes };
}

impl Lesson<Message, View> for Take {
    ghost fact = { IsAt };
}

/// One more is counted.
pub struct Raise;

impl Play<Option<u8>, CountView> for Raise {
    ghost then = { raised };
}

/// The count is read.
pub struct Look;

impl Play<Option<u8>, CountView> for Look {
    ghost then = { looked };
}

/// A message came back.
pub struct Back;

impl Play<Option<u8>, CountView> for Back {
    ghost then = { came_back };
}

/// A port collects.
pub struct Begin;

impl Play<Option<u8>, CountView> for Begin {
    ghost then = { begun };
}

/// A port notes what it has taken out.
pub struct Note;

impl Play<Option<u8>, CountView> for Note {
    ghost then = { noted };
}

/// The right of the next sender is given away.
pub struct ToSender;

impl Split<View> for ToSender {
    ghost left = { after_issue };

    ghost right = { issued };
}

/// The right to take out is given away.
pub struct ToReceiver;

impl Split<View> for ToReceiver {
    ghost left = { after_hand };

    ghost right = { handed };
}

/// One part of the count is given away.
pub struct OnePart;

impl Split<CountView> for OnePart {
    ghost left = { after_part };

    ghost right = { λ n. one_part n.room };
}

/// All that a port has is given away.
pub struct Everything;

impl Split<View> for Everything {
    ghost left = { λ _. spent_view };

    ghost right = { λ v. v };
}

impl Split<CountView> for Everything {
    ghost left = { λ n. spent_count n.room };

    ghost right = { λ n. n };
}

/// All that another port has is taken.
pub struct Both;

impl Join<View> for Both {
    ghost both = { joined_view };

    ghost spent = { spent_view };
}

impl Join<CountView> for Both {
    ghost both = { joined_count };

    ghost spent = { spent_count 0 };
}

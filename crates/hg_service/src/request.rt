use hg_model::{Bytes, Items, Name};
use hg_script::Why;

/// What a host asks of a node by one line.
#[derive(Debug, Drop)]
pub enum ServiceRequest {
    /// The members: all of the member file that an order can depend on.
    Members,
    /// The counts of the node.
    State,
    /// The name of the last event of each member that has one, in the members' order.
    Heads,
    /// Of the events from this place on that are ancestors of no event with one of these names: the first `limit`.
    Beyond {
        place: u64,
        limit: u64,
        names: Items<Name>,
    },
    /// To put these events, in their order.
    Put(Items<Bytes>),
    /// To take back these own events, in their order, each as one that the node makes.
    Restore(Items<Bytes>),
    /// To make an event at this time, on the events of these names; without names on the last event by another member.
    Make {
        time: u64,
        payload: Bytes,
        others: Items<Name>,
    },
    /// To publish all that the node's graph decides.
    Settle,
    /// Of the order, the `limit` events from this number on. The first event of an order has the number 1.
    Order {
        first: u64,
        limit: u64,
    },
    /// Of all events, the `limit` events from this place on.
    Events {
        place: u64,
        limit: u64,
    },
    /// What each member has after the order.
    Balances,
    /// A certificate of the order.
    Proof,
}

/// Why a line is no request: the first reason, with the words taken from left to right.
#[derive(Clone, Copy, Debug, PartialEq, Eq)]
pub enum LineFault {
    /// The line is longer than 1,048,576 bytes, without its line feed.
    Long,
    /// The word is not the 96 hexadecimal digits of an event's name.
    Name,
    /// The word is not the hexadecimal digits of an event: two or more, an even number.
    Digits,
    /// As of a line of a script: there is no such first word, too few or too many words stand behind it, or one of them is not
    /// the number, the payload or the member's name that it has to be.
    Script(Why),
}

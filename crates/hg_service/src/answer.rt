use crate::request::LineFault;
use hg_life::{Fault, MakeFault};
use hg_model::{Bytes, Items, Member, Name};
use hg_outcome::OrderLine;

/// Why a node made no event: the first reason.
#[derive(Clone, Copy, Debug, PartialEq, Eq)]
pub enum NotMade {
    /// Since it was opened, the node has refused an event by its own member that it did not make.
    Impostor,
    /// No name was given, and the node has no event by another member.
    PeerBare,
    /// No name and no payload was given, and the node's last event stands behind all events by other members.
    Idle,
    /// The node's own reason.
    Fault(MakeFault),
}

/// An event of a request that the node refused.
#[derive(Clone, Copy, Debug, PartialEq, Eq)]
pub struct RefusedEvent {
    /// Which of the request's events it is, from 0.
    pub number: u64,
    pub fault: Fault,
}

/// An event of the order.
#[derive(Debug, Drop)]
pub struct OrderedEvent {
    pub line: OrderLine,
    pub payload: Bytes,
}

/// What a host is told after a line.
#[derive(Debug, Drop)]
pub enum Answer {
    /// The line was no request, and nothing was done.
    Bad(LineFault),
    Members {
        /// Whose node it is.
        own: Member,
        /// SHA-384 of the canonical text of the members.
        digest: [u8; 48],
    },
    State {
        events: u64,
        /// How many members have a fork.
        forkers: u32,
        /// The greatest round, 0 without events.
        greatest: u32,
        /// The greatest round that the published fame closes, or 0.
        closed: u32,
        ordered: u64,
        /// How many events with a payload are not ordered yet.
        waiting: u64,
        /// Place and time of the node's last own event, if there is one.
        own: Option<(u64, u64)>,
        /// Whether the node refused, since it was opened, an event by its own member that it did not make.
        impostor: bool,
        /// The members with a first event that does not bind them to these members.
        strange: Items<Member>,
    },
    Heads(Items<Name>),
    Beyond {
        /// How many events there are beyond the names, from the place that was asked for on.
        all: u64,
        /// How many events the node has.
        rows: u64,
        /// The first of those beyond.
        events: Items<Bytes>,
    },
    Put {
        /// How many events the node had before.
        before: u64,
        accepted: u64,
        /// How many of the request's events the node had already.
        known: u64,
        refused: Items<RefusedEvent>,
    },
    /// The same of own events that came back.
    Restored {
        before: u64,
        accepted: u64,
        known: u64,
        refused: Items<RefusedEvent>,
    },
    Made {
        place: u64,
        event: Bytes,
    },
    NotMade(NotMade),
    /// How many witnesses were published.
    Settled(u64),
    Order {
        /// How many events are ordered.
        all: u64,
        /// The number of the first of these, from 1.
        first: u64,
        events: Items<OrderedEvent>,
    },
    Events {
        /// How many events the node has.
        all: u64,
        events: Items<Bytes>,
    },
    Balances {
        /// How many events are ordered.
        ordered: u64,
        /// What each member has then, in the members' order.
        balances: Items<u64>,
    },
    /// The bytes of a certificate.
    Proof(Bytes),
}

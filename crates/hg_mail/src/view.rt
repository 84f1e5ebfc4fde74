// What a port knows of its mailbox. Contracts alone speak of it: no value of these types is made.
use crate::message::Message;
use hg_model::Member;
use std::collections::LinkedList;

/// A sender that a port puts in for, with all that it has put in.
pub struct Sender {
    pub from: Member,
    pub put: LinkedList<Message>,
}

/// What a port knows of the messages.
pub struct View {
    /// Whether it may give out senders' ports, and the number of the next sender.
    pub gives: bool,
    pub next: usize,
    /// Whether it may take out, and all that was taken out so far.
    pub takes: bool,
    pub taken: LinkedList<Message>,
    /// The senders that it puts in for: one, before ports are taken back.
    pub senders: LinkedList<Sender>,
}

/// What a collect found: it came after so many other collects of its mailbox, and at its step so many messages were counted
/// in all.
pub struct Finding {
    pub number: u64,
    pub counted: u64,
}

/// What a port knows of the two counts, of all messages that were ever put in, and of those that are noted as taken out; and
/// what it notes of its own calls. Of `collects`, `dates` and `findings` the rule of the counts speaks; of `full` only the steps do.
pub struct CountView {
    /// For how many messages the mailbox has room.
    pub room: u64,
    /// Its share of the right to know the whole count.
    pub parts: u64,
    /// How many it has counted itself, as put in.
    pub mine: u64,
    /// How many it has noted itself, as taken out.
    pub out: u64,
    /// How often a message came back to it while so many were counted, and not noted as taken out, as there is room for.
    pub full: u64,
    /// How often it collected.
    pub collects: u64,
    /// So many were counted in all, at least.
    pub seen: u64,
    /// How many were counted when it looked last.
    pub counted: u64,
    /// For each message that it has counted, how many collects there had been by then, those of all ports together.
    pub dates: LinkedList<u64>,
    /// What each of its collects found, the first one's first.
    pub findings: LinkedList<Finding>,
}

use crate::sending::Dispatch;
use crate::taking::Intake;
use hg_board::Seat;
use hg_made::Draws;
use hg_mail::Port;
use hg_model::Member;
use hg_sign::SharedTable;

/// What a member did in its turns.
#[derive(Debug, Drop)]
pub struct Log {
    /// What it sent to each member, in their order.
    pub dispatches: Vec<Dispatch>,
    pub intake: Intake,
    /// How many turns made no event.
    pub idle: u32,
}

/// What a member has for its turns: a seat of its node, a port to each mailbox, and the one of its own mailbox's receiver.
#[derive(Drop)]
pub struct Desk {
    pub me: Member,
    pub log: Log,
    pub seat: Seat<SharedTable>,
    pub draws: Draws,
    pub ports: Vec<Port>,
    pub inbox: Port,
}

/// A member's desk, and the seat of those that work beside its turns.
#[derive(Drop)]
pub struct Job {
    pub desk: Desk,
    pub seat: Seat<SharedTable>,
}

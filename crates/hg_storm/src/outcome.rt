use crate::mails::Mail;
use crate::refusals::Refusal;
use hg_mail::Port;
use hg_world::World;

/// What became of a storm.
#[derive(Drop)]
pub struct Storm {
    /// The nodes. Of the members that have one, the first's has pulled from each other's after the joins, each other's from it,
    /// and all of these are settled.
    pub world: World,
    /// What each member that has a node sent each other one, in their order.
    pub mail: Vec<Mail>,
    /// By each member's mailbox, in their order: the port that took all others back, which has counted how often the member
    /// collected and how often a message came back.
    pub ports: Vec<Port>,
    /// In how many turns each member's node made no event, in their order. A member without a node takes no turn.
    pub idle: Vec<u32>,
    /// What each member's node refused until the joins, in their order.
    pub refused: Vec<Vec<Refusal>>,
    /// How many changes each node had at the joins.
    pub ended: Vec<usize>,
}

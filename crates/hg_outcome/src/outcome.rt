ghost use Rattle.std.specs.Prelude.{◌≡◌};
ghost use Rattle.hg_outcome.specs.Report.{head_of};
ghost use Rattle.hg_outcome.specs.Summary.{head_told};

use hg_life::{Effect, MakeAnswer, PutAnswer, SyncReport};
use hg_model::{Bytes, Items, Member, Name};

/// A row of a printed order.
#[derive(Clone, Copy, Debug, PartialEq, Eq)]
pub struct OrderLine {
    pub creator: Member,
    /// How many self-ancestors the row has, other than itself.
    pub sequence: u64,
    /// The round that received it.
    pub received: u32,
    /// Its consensus timestamp, in the creators' own unit.
    pub time: u64,
    /// What came of its payload.
    pub effect: Effect,
    pub name: Name,
}

/// What the first line of a block tells of a node: its counts, and how many rows its order has.
#[derive(Clone, Copy, Debug, PartialEq, Eq)]
pub struct Head {
    pub member: Member,
    pub events: u64,
    pub forkers: u32,
    pub greatest: u32,
    pub closed: u32,
    pub ordered: u64,
}

/// What is printed of a node: its counts, its order, and all balances in the order of the members.
#[derive(Debug, Drop)]
pub struct Block {
    pub member: Member,
    /// How many rows the graph has.
    pub events: u64,
    /// How many members have a fork.
    pub forkers: u32,
    /// The greatest round, 0 without rows.
    pub greatest: u32,
    /// The greatest closed round, or 0.
    pub closed: u32,
    pub order: Items<OrderLine>,
    pub balances: Items<u64>,
}

impl Block {
    /// What its first line tells.
    pub fn head(&self) -> Head
        ensures { result ≡ head_of self.now }
    {
        Head {
            member: self.member,
            events: self.events,
            forkers: self.forkers,
            greatest: self.greatest,
            closed: self.closed,
            ordered: self.order.as_slice().len() as u64,
        }
    }
}

/// One piece of the report. `line` is the number of the script's line, from 1.
#[derive(Debug, Drop)]
pub enum Printed {
    /// A node's first event.
    Create { line: u64, answer: MakeAnswer },
    /// An event whose other-parent a label names.
    Join { line: u64, answer: MakeAnswer },
    Sync { line: u64, report: SyncReport },
    /// How many of the peer's events were taken, and how many refused.
    Pull { line: u64, taken: u64, refused: u64 },
    /// The bytes of a label, put to a node.
    Give { line: u64, answer: PutAnswer },
    /// How many rows of a node's graph a worker froze.
    Freeze { line: u64, len: u64 },
    /// How many witnesses were marked.
    Publish { line: u64, count: u32 },
    Block(Block),
    /// A block whose order tells the names of the events.
    Names(Block),
}

/// All that a run prints, and the names of its members in their order.
#[derive(Debug, Drop)]
pub struct Outcome {
    pub names: Items<Bytes>,
    pub printed: Items<Printed>,
}

/// What a summary tells of a node: what the first line of its block tells, the digest of the names of the ordered rows, and
/// the sum of all balances.
#[derive(Clone, Copy, Debug, PartialEq, Eq)]
pub struct NodeSummary {
    pub member: Member,
    pub events: u64,
    pub forkers: u32,
    pub greatest: u32,
    pub closed: u32,
    pub ordered: u64,
    pub digest: Name,
    pub total: u128,
}

impl NodeSummary {
    /// What the first line of the node's block tells.
    pub fn head(&self) -> Head
        ensures { result ≡ head_told self.now }
    {
        Head {
            member: self.member,
            events: self.events,
            forkers: self.forkers,
            greatest: self.greatest,
            closed: self.closed,
            ordered: self.ordered,
        }
    }
}

/// What is told of the last blocks of a run, and the names of its members in their order.
#[derive(Debug, Drop)]
pub struct Summary {
    pub names: Items<Bytes>,
    pub nodes: Items<NodeSummary>,
}

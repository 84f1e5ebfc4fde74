use hg_life::MakeFault;
use hg_model::Bytes;
use hg_outcome::Outcome;

/// How many events were accepted, were known, and were refused.
#[derive(Clone, Copy, Debug, PartialEq, Eq)]
pub struct PutCounts {
    pub accepted: u64,
    pub known: u64,
    pub refused: u64,
}

/// What came of the event that was to be made.
#[derive(Debug, Drop)]
pub enum Making {
    /// It is now the row at this place; its bytes in lower-case hexadecimal digits.
    Made { place: usize, digits: Bytes },
    /// The node has made an event before, and has none by another member to stand on.
    PeerBare,
    /// Nothing was made, for this reason.
    Refused(MakeFault),
}

/// What came of the work on a node.
#[derive(Debug, Drop)]
pub struct KeepReport {
    /// How many rows the node had when it was opened.
    pub opened: u64,
    pub counts: PutCounts,
    /// Of an event that was to be made, if one was.
    pub made: Option<Making>,
    /// The node's block.
    pub outcome: Outcome,
}

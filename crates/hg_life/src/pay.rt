use hg_model::Member;

/// A transfer as a payload spells it: an amount that the event's creator pays to the receiver.
#[derive(Clone, Copy, Debug, PartialEq, Eq)]
pub struct Transfer {
    pub receiver: Member,
    pub amount: u64,
}

/// What came of the payload of an event that is ordered.
#[derive(Clone, Copy, Debug, PartialEq, Eq)]
pub enum Effect {
    /// The payload has no bytes.
    Empty,
    /// The payload is none of transfers.
    Unread,
    /// So many of the payload's transfers were done, and the others skipped.
    Paid { done: u32, of: u32 },
}

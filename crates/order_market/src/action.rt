use hg_model::{Bytes, Member, Name};

/// What is done in a market.
#[derive(Debug, Drop)]
pub enum Action {
    /// A member's node makes an event on its last one, with this other-parent, or its first one without parents.
    Make {
        member: Member,
        other: Option<Name>,
        time: u64,
        payload: Bytes,
    },
    /// A member's node takes what it lacks from another's, and makes an event on the other's last one.
    Sync {
        taker: Member,
        peer: Member,
        time: u64,
        payload: Bytes,
    },
    /// Any bytes come to a member's node.
    Deliver {
        member: Member,
        bytes: Bytes,
    },
    /// A member's node publishes all fame that its graph decides.
    Settle {
        member: Member,
    },
}

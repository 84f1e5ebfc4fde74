use hg_model::{Bytes, Items, Member};

/// What a node does: it makes an event, or takes some. A payload has at most 1,024 bytes.
#[derive(Debug, Drop)]
pub enum Gossip {
    /// The member's node makes its first event, at this time.
    Create {
        member: Member,
        time: u64,
        payload: Bytes,
    },
    /// The taker's node takes from the peer's the events that it lacks, then makes one at this time.
    Sync {
        taker: Member,
        peer: Member,
        time: u64,
        payload: Bytes,
    },
    /// The taker's node takes from the peer's the events that it lacks.
    Pull {
        taker: Member,
        peer: Member,
    },
    /// The member's node makes an event at this time, with the events of one to four labels as other-parents.
    Join {
        member: Member,
        others: Items<usize>,
        time: u64,
        payload: Bytes,
    },
    /// The bytes of a label are put to the member's node.
    Give {
        member: Member,
        label: usize,
    },
}

/// Where the bytes come from that a label stands for.
#[derive(Debug, Drop)]
pub enum Source {
    /// The last event that the member's own node made, or no bytes.
    Last {
        member: Member,
    },
    /// An event by this member at this time, signed with the member's secret. Its parents are the events of
    /// labels: the self-parent's, and one to four others'.
    Forged {
        creator: Member,
        parents: Option<(usize, Items<usize>)>,
        time: u64,
        payload: Bytes,
    },
    /// These bytes.
    Raw {
        bytes: Bytes,
    },
    /// The bytes of a label, of which the one at this place is XORed with the mask, if there is one.
    Altered {
        label: usize,
        at: u64,
        mask: u8,
    },
    /// The first bytes of a label, so many, or all where it has fewer.
    Front {
        label: usize,
        len: u64,
    },
}

/// What may stand in a batch. A label is told by its number: how many labels were made above it.
#[derive(Debug, Drop)]
pub enum Part {
    /// A node does this, and a line is printed.
    Gossip(Gossip),
    /// One label more stands for these bytes. Nothing is printed.
    Label(Source),
}

/// What a line of the script does.
#[derive(Debug, Drop)]
pub enum Action {
    /// What a line of a batch does.
    Part(Part),
    /// A worker of the member's node, numbered below 16, freezes the node's graph as it is now.
    Freeze { member: Member, worker: u32 },
    /// The fame of all witnesses of the rows that a worker of the member's node, numbered below 16, froze last is
    /// published by the node; nothing where it froze none.
    Publish { member: Member, worker: u32 },
    /// The block of the member's node is printed, by what the node has published so far.
    Kept { member: Member },
    /// The block of the member's node is printed.
    Show { member: Member },
    /// The same, each line of the order with the event's name.
    Names { member: Member },
}

/// A line of the script, numbered from 1.
#[derive(Debug, Drop)]
pub struct Line {
    pub number: u64,
    pub action: Action,
}

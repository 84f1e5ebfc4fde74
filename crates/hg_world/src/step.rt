use hg_life::{MakeAnswer, PutAnswer};
use hg_model::{Bytes, Items, Member, Name, Share};

/// A step of a run, on the node of a member.
#[derive(Debug, Drop)]
pub enum Step {
    /// The node makes an event on its last one, with these one to four other-parents, or with none its first one, without
    /// parents. The time is any, in no unit of ours.
    Make {
        node: Member,
        others: Items<Name>,
        time: u64,
        payload: Bytes,
    },
    /// Any bytes come to the node.
    Deliver {
        node: Member,
        bytes: Bytes,
    },
    /// A worker, of a number below 16, freezes the node's rows.
    Freeze {
        node: Member,
        worker: u32,
    },
    /// The worker publishes what a share of the witnesses decides in the rows that it froze last; nothing where it
    /// froze none.
    Publish {
        node: Member,
        worker: u32,
        share: Share,
    },
}

/// What a step answers.
#[derive(Clone, Copy, Debug, PartialEq, Eq)]
pub enum Reply {
    Make(MakeAnswer),
    Put(PutAnswer),
    /// How many rows were frozen.
    Frozen(usize),
    /// How many witnesses were marked.
    Published(u32),
}

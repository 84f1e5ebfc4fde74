use hg_model::{Bytes, Member};

/// An event on its way to another member's node.
#[derive(Clone, Debug, Drop)]
pub struct Message {
    /// Who puts it in.
    pub from: Member,
    /// Which row of the sender's node it is, from 0.
    pub number: usize,
    /// The event as the sender's node holds it. A mailbox takes any bytes.
    pub bytes: Bytes,
}

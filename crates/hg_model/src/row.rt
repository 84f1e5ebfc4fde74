use crate::items::{Bytes, Items};

/// A member's number, from 0 in the order of the member file.
pub type Member = u16;

/// The name of an event: SHA-384 of all its bytes, the signature's included.
pub type Name = [u8; 48];

/// A signature, 64 bytes.
pub type Sig = [u8; 64];

/// An event as a node keeps it.
#[derive(Clone, Debug, Drop)]
pub struct Row {
    pub creator: Member,
    /// The names of the self-parent and of one to four other-parents, in order; none of a member's first event.
    pub parents: Option<(Name, Items<Name>)>,
    /// As the creator claims it, in no unit of ours.
    pub time: u64,
    /// 0 to 1,024 bytes.
    pub payload: Bytes,
    pub sig: Sig,
    pub name: Name,
}

/// A row of the order: its place in the graph, the round that received it, and its consensus timestamp, in the creators'
/// own unit.
#[derive(Clone, Copy, Debug, PartialEq, Eq)]
pub struct Placed {
    pub place: usize,
    pub received: u32,
    pub time: u64,
}

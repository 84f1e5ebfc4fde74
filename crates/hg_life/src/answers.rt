use hg_model::{Member, Name};

/// What is wrong with an event's bytes: the first fault from left to right.
#[derive(Clone, Copy, Debug, PartialEq, Eq)]
pub enum ByteFault {
    /// The input, of this many bytes, ends inside a field or before one that must come.
    Short(usize),
    /// One of the first four bytes, as far as they are there, is not that of `HGE1` or of `HGE2`.
    BadMagic,
    /// A kind byte above 1 in the form `HGE1`, or one that is not 2 to 4 in the form `HGE2`.
    BadKind(u8),
    /// A payload length above 1,024.
    BadLength(u16),
    /// How many bytes follow the signature.
    Trailing(usize),
}

/// Why a node refuses an event: the first of these that holds.
#[derive(Clone, Copy, Debug, PartialEq, Eq)]
pub enum Fault {
    /// The bytes spell no event.
    Bytes(ByteFault),
    /// The creator's number is no member's.
    Member(Member),
    /// The row at this place has the same name and other bytes.
    Collision(usize),
    /// The verifier does not accept the signature.
    Signature,
    /// The creator is the node's own member, and the node did not make the event.
    Impostor,
    /// No row has this name, the self-parent's.
    MissingSelf(Name),
    /// No row has this name, that of an other-parent: the first such one.
    MissingOther(Name),
    /// The self-parent, at this place, is by another creator.
    SelfCreator(usize),
    /// An other-parent, at this place, is by the same creator: the first such one.
    OtherCreator(usize),
    /// With the event members of so much stake would have a fork, a third of all or more.
    TooManyForkers(u64),
    /// The node holds so many rows, the most that it takes.
    Full(usize),
}

/// What came of an event that was put to a node.
#[derive(Clone, Copy, Debug, PartialEq, Eq)]
pub enum PutAnswer {
    /// It is now the row at this place.
    Accepted(usize),
    /// It was the row at this place before.
    Known(usize),
    Refused(Fault),
}

/// Why a node makes no event: the first of these that holds.
#[derive(Clone, Copy, Debug, PartialEq, Eq)]
pub enum MakeFault {
    /// No other-parent was given, and the node has made its first event before.
    HasFirst,
    /// An other-parent was given, and the node has made no event.
    NoFirst,
    /// No row has this name, that of an other-parent: the first such one.
    MissingOther(Name),
    /// An other-parent, at this place, is the node's own: the first such one.
    OtherCreator(usize),
    /// The payload has so many bytes, above 1,024.
    PayloadLong(usize),
    /// The row at this place has the new event's name.
    Collision(usize),
    /// The node holds so many rows, the most that it takes.
    Full(usize),
}

/// What came of a node's making an event.
#[derive(Clone, Copy, Debug, PartialEq, Eq)]
pub enum MakeAnswer {
    /// It is now the row at this place.
    Made(usize),
    Refused(MakeFault),
}

/// What came of the event at the end of a sync.
#[derive(Clone, Copy, Debug, PartialEq, Eq)]
pub enum SyncMade {
    /// It is now the row at this place.
    Row(usize),
    /// The peer has made no event.
    PeerBare,
    /// None was made, for this cause.
    Fault(MakeFault),
}

/// What came of a sync: how many of the peer's rows were taken, how many refused, and the event made.
/// Rows that it had count as neither.
#[derive(Clone, Copy, Debug, PartialEq, Eq)]
pub struct SyncReport {
    pub taken: u64,
    pub refused: u64,
    pub made: SyncMade,
}

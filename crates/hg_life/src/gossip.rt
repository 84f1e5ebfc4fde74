use hg_model::{Bytes, Items, Name};

/// What a node hands over in a sync: the bytes of its events that the taker lacks, in its own order, and the name of
/// the last event that its own member made, if it made one.
#[derive(Debug, Drop)]
pub struct Parcel {
    pub rows: Items<Bytes>,
    pub last: Option<Name>,
}

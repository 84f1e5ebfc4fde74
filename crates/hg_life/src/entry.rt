use hg_model::Share;

/// What a node's log has of a change of its history.
#[derive(Clone, Copy, Debug, PartialEq, Eq)]
pub enum Entry {
    /// The row at this place was taken.
    Took(usize),
    /// The row at this place was made.
    Made(usize),
    /// The witnesses of the share were marked with the fame that the first `len` rows decide.
    Marked { len: usize, share: Share },
}

use std::sync::Arc;

/// A list of places: open, with its owner alone, or sealed, so that prefixes may share it.
#[derive(Drop)]
pub enum Places {
    Open(Vec<usize>),
    Sealed(Arc<Vec<usize>>),
}

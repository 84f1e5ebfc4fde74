/// A call to the outside failed, and its fault was counted.
#[derive(Clone, Copy, Debug, PartialEq, Eq)]
pub struct Failed;

/// What is told when the program reaches a point of its work, as a test that orders threads is. Nothing is known of it.
pub trait Gate {
    /// The work has come to the point of this number.
    fn reach(&self, point: u32);
}

/// The gate of a program that nobody watches.
#[derive(Clone, Copy, Debug, PartialEq, Eq)]
pub struct NoGate;

impl Gate for NoGate {
    fn reach(&self, _point: u32) {}
}

//! What a test that fails prints is proved here once, and not at each place that tests.

use std::fmt::Debug;
use std::process::Abort;

/// What is found in this case is to be what is wanted.
pub(crate) fn equal<T: Copy + Debug + PartialEq>(
    rt: &impl Abort,
    case: usize,
    found: T,
    wanted: T,
) {
    assert_eq!(rt; found, wanted, "case {case}");
}

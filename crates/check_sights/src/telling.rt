//! What a test that fails prints is proved here once, and not at each place that tests.

use std::fmt::Debug;
use std::process::Abort;

/// What is found in this case is to be what is wanted.
pub(crate) fn equal<T: Copy + Debug + PartialEq>(
    rt: &impl Abort,
    case: usize,
    found: T,
    wanted: T,
) {
    assert_eq!(rt; found, wanted, "case {case}");
}

/// What is told in this case is to be so.
pub(crate) fn holds(rt: &impl Abort, case: usize, told: bool) {
    assert!(rt; told, "case {case}");
}

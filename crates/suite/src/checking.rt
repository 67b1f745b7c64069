//! Comparing a result with the expected one.

use std::fmt::Debug;
use std::process::Abort;

/// Ends the test if two values differ, and prints both after `what`, which names the value. A call
/// costs the prover less than `assert_eq!` in its place, which would be a branch of the test.
pub(crate) fn check_equal<T: PartialEq + Debug + Drop>(
    rt: &impl Abort,
    what: &str,
    found: T,
    expected: T,
) {
    assert_eq!(rt; found, expected, "{what}");
}

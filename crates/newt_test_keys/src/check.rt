//! What a test wants. A call of this function costs the proof less than an assertion in its place.

use std::process::Abort;

/// Asserts that what is wanted holds.
pub(crate) fn check(rt: &impl Abort, holds: bool, what: &str) {
    assert!(rt; holds, "{what}");
}

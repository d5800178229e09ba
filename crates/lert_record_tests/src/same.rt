//! Equality as these tests assert it. This is proved once, where each `assert_eq!` is proved at its place.

use std::fmt::Debug;
use std::process::Abort;

// Asserts that what was found is what is wanted. `of` tells of what, where it isn't. At a row of a table both have
// the row's number in them.
pub(crate) fn assert_same<T: PartialEq + Debug>(rt: &impl Abort, found: &T, want: &T, of: &str) {
    assert_eq!(rt; found, want, "{of}");
}

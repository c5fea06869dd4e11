//! What the tables of the tests share.

use std::process::Abort;

/// Fails where what a row found isn't what is wanted.
pub fn compare<T: PartialEq>(rt: &impl Abort, row: usize, found: &T, wanted: &T) {
    assert!(rt; *found == *wanted, "in row {row}");
}

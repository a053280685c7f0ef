//! Comparisons, where a test ends that finds something else.

use std::process::Abort;

/// Compares two texts.
pub(crate) fn same(rt: &impl Abort, found: &str, wanted: &str, what: &str) {
    assert_eq!(rt; found, wanted, "{what}");
}

/// Compares how many rows were read with how many a table has.
pub(crate) fn all_read(rt: &impl Abort, read: usize, count: usize) {
    assert_eq!(rt; read, count, "rows");
}

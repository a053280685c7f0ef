//! Comparisons that the tests share. An assertion writes both values and a message, so it stands here once for all.

use std::process::Abort;
use std::test::Fail;

/// Compares what is found of a case with what is wanted.
pub(crate) fn same(rt: &impl Abort, found: &str, want: &str, case: &str) {
    assert_eq!(rt; found, want, "{case}");
}

/// Compares bytes.
pub(crate) fn same_bytes(rt: &impl Abort, found: &[u8], want: &[u8], case: &str) {
    assert_eq!(rt; found, want, "{case}");
}

/// Compares numbers.
pub(crate) fn same_count(rt: &impl Abort, found: usize, want: usize, what: &str) {
    assert_eq!(rt; found, want, "{what}");
}

/// The two sides of the first `|`.
pub(crate) fn sides(text: &str) -> Result<(&str, &str), Fail> {
    match text.split_once('|') {
        Some(parts) => Ok(parts),
        None => Err(Fail::from("a case without its parts")),
    }
}

//! Comparisons that the tests share. An assertion writes both values and a message, so it stands here once for all.

use std::alloc::{AllocError, Global};
use std::fmt::Debug;
use std::process::Abort;
use std::test::Fail;

/// Compares what a row of a table gives with what is wanted.
pub(crate) fn same<T: Copy + PartialEq + Debug>(rt: &impl Abort, row: usize, found: T, want: T) {
    assert_eq!(rt; found, want, "row {row}");
}

/// Compares texts.
pub(crate) fn same_text(rt: &impl Abort, row: usize, found: &str, want: &str) {
    assert_eq!(rt; found, want, "row {row}");
}

/// Compares bytes.
pub(crate) fn same_bytes(rt: &impl Abort, row: usize, found: &[u8], want: &[u8]) {
    assert_eq!(rt; found, want, "row {row}");
}

// A value as a text.
fn text_of<T: Debug>(alloc: Global, value: &T) -> Result<String, AllocError> {
    format!(in alloc; "{value:?}")
}

/// Compares a value, written out, with a text.
pub(crate) fn same_debug<T: Debug>(
    rt: &(impl Abort + AllocGlobal),
    row: usize,
    value: &T,
    want: &str,
) -> Result<(), Fail> {
    let text = text_of(rt.alloc(), value)?;
    same_text(rt, row, text.as_str(), want);
    Ok(())
}

//! Comparisons that the tests share. An assertion writes both values and a message, so it stands here once for all.

use std::fmt::Debug;
use std::process::Abort;
use std::test::Fail;

/// Compares what a row of a table gives with what is wanted.
pub(crate) fn same<T: Copy + PartialEq + Debug>(rt: &impl Abort, row: usize, found: T, want: T) {
    assert_eq!(rt; found, want, "row {row}");
}

/// Compares texts.
pub(crate) fn same_text(rt: &impl Abort, row: usize, found: &str, want: &str) {
    assert_eq!(rt; found, want, "row {row}");
}

/// Compares bytes.
pub(crate) fn same_bytes(rt: &impl Abort, row: usize, found: &[u8], want: &[u8]) {
    assert_eq!(rt; found, want, "row {row}");
}

/// Compares what is found with what is wanted of a case.
pub(crate) fn same_found(rt: &impl Abort, case: &str, found: &str, want: &str) {
    assert_eq!(rt; found, want, "{case}");
}

/// The two sides of a mark.
pub(crate) fn sides_at<'a>(row: &'a str, mark: &str) -> Result<(&'a str, &'a str), Fail> {
    match row.split_once(mark) {
        Some(parts) => Ok(parts),
        None => Err(Fail::from("a row without its parts")),
    }
}

/// What stands before the backtick of a row of a table, and what stands behind it, up to the line's end. (A table is one
/// text, which costs a proof little, where an array costs time for each row.)
pub(crate) fn sides(row: &str) -> Result<(&str, &str), Fail> {
    let (text, want) = sides_at(row, "`")?;
    Ok((text, want.trim_end()))
}

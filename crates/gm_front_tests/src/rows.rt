//! Tables of rows. A table is one text with a line for each row: what is given, ` => `, and what is wanted. Empty lines
//! and lines that begin with `#` are no rows. (A text costs a proof nothing, where an array costs time for each row.)

use std::process::Abort;
use std::test::Fail;

/// Whether a line is a row.
pub(crate) fn is_row(line: &str) -> bool {
    !line.is_empty() && !line.starts_with('#')
}

/// The two sides of a mark.
pub(crate) fn sides<'a>(text: &'a str, mark: &str) -> Result<(&'a str, &'a str), Fail> {
    match text.split_once(mark) {
        Some(parts) => Ok(parts),
        None => Err(Fail::from("a row without its parts")),
    }
}

/// What a row gives, and what it wants.
pub(crate) fn parts_of(line: &str) -> Result<(&str, &str), Fail> {
    sides(line, " => ")
}

/// A number of a row.
pub(crate) fn number_of(text: &str) -> Result<usize, Fail> {
    match text.parse::<usize>() {
        Ok(number) => Ok(number),
        Err(_) => Err(Fail::from("a row without its number")),
    }
}

/// Compares what was found with what is wanted of a text.
pub(crate) fn same(rt: &impl Abort, found: &str, want: &str, text: &str) {
    assert_eq!(rt; found, want, "{text}");
}

/// Compares how many rows were read with how many a table has.
pub(crate) fn all_read(rt: &impl Abort, rows: usize, count: usize) {
    assert_eq!(rt; rows, count, "rows");
}

//! Tables of tests. A table is one text. Its rows are lines, but for empty ones and those that begin with `#`; or each row
//! begins with `~` and a line of words, then comes what is given up to `=>`, and what is wanted. (A text costs a proof little,
//! where an array costs time for each row and each row before it.)
#![tactic(auto)]

use std::test::Fail;

/// Whether a line of a table is a row.
pub fn is_line(line: &str) -> bool {
    !line.is_empty() && !line.starts_with('#')
}

/// Whether a part of a table between two `~` is a row: what stands before the first is none.
pub fn is_row(part: &str) -> bool {
    part.len() > 1
}

/// The two sides of a mark.
pub fn sides<'a>(text: &'a str, mark: &str) -> Result<(&'a str, &'a str), Fail> {
    match text.split_once(mark) {
        Some(parts) => Ok(parts),
        None => Err(Fail::from("a row without its parts")),
    }
}

/// The parts of a row: its first line, what stands behind it up to `=>`, and what stands behind that.
pub fn parts_of(row: &str) -> Result<(&str, &str, &str), Fail> {
    let (line, rest) = sides(row, "\n")?;
    let (given, wanted) = sides(rest, "=>\n")?;
    Ok((line, given, wanted))
}

/// A number of a row, with blanks around it or not.
pub fn number_of(text: &str) -> Result<u64, Fail> {
    match text.trim().parse::<u64>() {
        Ok(number) => Ok(number),
        Err(_) => Err(Fail::from("a row without its number")),
    }
}

//! Verdicts on texts, and tables of them.

use crate::rows::{all_read, is_row, parts_of, same};
use gm_ast::forms::Checked;
use gm_base::Stop;
use gm_canon::verdict;
use std::alloc::{AllocError, Global};
use std::process::Abort;
use std::test::Fail;

// The program of a text that is accepted, by a call that promises nothing.
fn checked(alloc: Global, text: &[u8]) -> Result<Checked, Stop> {
    verdict(alloc, text)
}

// The verdict on a text, without its program. (The program is dropped here, so that no other function has to prove it.)
fn judge(alloc: Global, text: &[u8]) -> Result<(), Stop> {
    match checked(alloc, text) {
        Ok(_) => Ok(()),
        Err(stop) => Err(stop),
    }
}

// What is said of a text: that it is accepted, or the rule that it breaks with its place.
fn said_of(alloc: Global, text: &[u8]) -> Result<String, AllocError> {
    match judge(alloc, text) {
        Ok(()) => String::from_str(alloc, "accepted"),
        Err(Stop::Refused(refusal)) => format!(in alloc; "{} at {}", refusal.rule, refusal.place),
        Err(stop) => format!(in alloc; "{stop}"),
    }
}

// What is said of statements behind the head of a procedure and in line 2.
fn said_behind(alloc: Global, head: &str, statements: &str) -> Result<String, AllocError> {
    let text = format!(in alloc; "{head}\n{statements}\n}}")?;
    said_of(alloc, text.as_str().as_bytes())
}

// Compares the verdict of a row.
fn statement_holds(rt: &(impl Abort + AllocGlobal), head: &str, row: &str) -> Result<(), Fail> {
    let (statements, want) = parts_of(row)?;
    let said = said_behind(rt.alloc(), head, statements)?;
    same(rt, said.as_str(), want, statements);
    Ok(())
}

/// Compares the verdicts of so many rows.
pub(crate) fn statements_hold(
    rt: &(impl Abort + AllocGlobal),
    head: &str,
    rows: &str,
    count: usize,
) -> Result<(), Fail> {
    let mut read = 0usize;
    for line in rows.lines() {
        if is_row(line) {
            statement_holds(rt, head, line)?;
            read = read.saturating_add(1);
        }
    }
    all_read(rt, read, count);
    Ok(())
}

//! Loops before and after they are turned round.

use crate::compare::{all_read, same};
use crate::passes::{ASKED, FLIPPED, Pass};
use crate::runs::{Frame, body_runs_same, source_after};
use gm_tables::is_line;
use std::alloc::Global;
use std::process::Abort;
use std::test::Fail;

// Whether a body, its loops in pieces, is changed by turning its loops round where it pulls.
fn changes_as(
    rt: &impl Abort,
    alloc: Global,
    body: &str,
    flipped: &str,
    pulls: bool,
) -> Result<(), Fail> {
    let before = source_after(rt, alloc, Frame::Filled, body, &[Pass::CutBodies])?;
    assert_eq!(rt; flipped != before.as_str(), pulls, "{flipped}");
    Ok(())
}

// Whether it is changed by no second time.
fn stays(rt: &impl Abort, alloc: Global, body: &str, flipped: &str) -> Result<(), Fail> {
    let passes = [Pass::CutBodies, Pass::Flip, Pass::Flip];
    let again = source_after(rt, alloc, Frame::Filled, body, &passes)?;
    same(rt, again.as_str(), flipped, body);
    Ok(())
}

// Whether both are so.
fn flips_as(rt: &impl Abort, alloc: Global, body: &str, pulls: bool) -> Result<(), Fail> {
    let flipped = source_after(rt, alloc, Frame::Filled, body, &FLIPPED)?;
    changes_as(rt, alloc, body, flipped.as_str(), pulls)?;
    stays(rt, alloc, body, flipped.as_str())
}

// Whether a body runs the same after its loops are turned round and ask at their nodes first, and is changed by turning or
// not.
fn body_flips_as(rt: &impl Abort, alloc: Global, body: &str, pulls: bool) -> Result<(), Fail> {
    body_runs_same(rt, alloc, Frame::Filled, body, &ASKED)?;
    flips_as(rt, alloc, body, pulls)
}

/// Whether each of so many bodies does.
pub fn all_flip_as(
    rt: &impl Abort,
    alloc: Global,
    bodies: &str,
    count: usize,
    pull: bool,
) -> Result<(), Fail> {
    let mut read = 0usize;
    for body in bodies.lines() {
        if is_line(body) {
            body_flips_as(rt, alloc, body, pull)?;
            read = read.saturating_add(1);
        }
    }
    all_read(rt, read, count);
    Ok(())
}

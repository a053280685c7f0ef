//! Reductions as values, also over nothing, and their totals: programs with the outcomes that the
//! rules of `docs/MEANING.md` give them, worked out by hand.

use crate::calls::{PLAIN, calls_hold};
use gm_rows::reductions::{MORE_REDUCTIONS, REDUCTIONS};
use std::test::Fail;

#[test]
fn reductions(rt: HostRuntime) -> Result<(), Fail> {
    calls_hold(&rt, rt.alloc(), PLAIN, "", REDUCTIONS, 9)
}

#[test]
fn more_reductions(rt: HostRuntime) -> Result<(), Fail> {
    calls_hold(&rt, rt.alloc(), PLAIN, "", MORE_REDUCTIONS, 21)
}

//! Searches: levels over cycles, self-loops, parallel edges and nodes that are not reached: programs with the outcomes that the
//! rules of `docs/MEANING.md` give them, worked out by hand.

use crate::calls::{PLAIN, calls_hold};
use gm_rows::searches::{MORE_SEARCHES, SEARCHES};
use std::test::Fail;

#[test]
fn searches(rt: HostRuntime) -> Result<(), Fail> {
    calls_hold(&rt, rt.alloc(), PLAIN, "", SEARCHES, 7)
}

#[test]
fn more_searches(rt: HostRuntime) -> Result<(), Fail> {
    calls_hold(&rt, rt.alloc(), PLAIN, "", MORE_SEARCHES, 14)
}

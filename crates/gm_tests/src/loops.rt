//! Parallel loops: own writes, pushes, pulls and what stays at home: programs with the outcomes that the
//! rules of `docs/MEANING.md` give them, worked out by hand.

use crate::calls::{PLAIN, calls_hold};
use gm_rows::loops::{MORE_LOOPS, NEIGHBOURS, OWN};
use std::test::Fail;

#[test]
fn own(rt: HostRuntime) -> Result<(), Fail> {
    calls_hold(&rt, rt.alloc(), PLAIN, "", OWN, 11)
}

#[test]
fn neighbours(rt: HostRuntime) -> Result<(), Fail> {
    calls_hold(&rt, rt.alloc(), PLAIN, "", NEIGHBOURS, 19)
}

#[test]
fn more_loops(rt: HostRuntime) -> Result<(), Fail> {
    calls_hold(&rt, rt.alloc(), PLAIN, "", MORE_LOOPS, 19)
}

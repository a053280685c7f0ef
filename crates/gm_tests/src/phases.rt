//! Sequential phases: statements, what is hoisted, turns, and `Return`: programs with the outcomes that the
//! rules of `docs/MEANING.md` give them, worked out by hand.

use crate::calls::{PLAIN, calls_hold};
use gm_rows::phases::{HOISTED, MORE_PHASES, PHASES};
use std::test::Fail;

#[test]
fn phases(rt: HostRuntime) -> Result<(), Fail> {
    calls_hold(&rt, rt.alloc(), PLAIN, "", PHASES, 16)
}

#[test]
fn hoisted(rt: HostRuntime) -> Result<(), Fail> {
    calls_hold(&rt, rt.alloc(), PLAIN, "", HOISTED, 14)
}

#[test]
fn more_phases(rt: HostRuntime) -> Result<(), Fail> {
    calls_hold(&rt, rt.alloc(), PLAIN, "", MORE_PHASES, 31)
}

//! The bound on turns at each kind of turn: programs with the outcomes that the
//! rules of `docs/MEANING.md` give them, worked out by hand.

use crate::calls::{PLAIN, calls_hold};
use gm_rows::cuts::{CUTS, MORE_CUTS};
use std::test::Fail;

#[test]
fn cuts(rt: HostRuntime) -> Result<(), Fail> {
    calls_hold(&rt, rt.alloc(), PLAIN, "", CUTS, 9)
}

#[test]
fn more_cuts(rt: HostRuntime) -> Result<(), Fail> {
    calls_hold(&rt, rt.alloc(), PLAIN, "", MORE_CUTS, 19)
}

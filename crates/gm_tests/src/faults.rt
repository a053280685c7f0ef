//! Which fault is shown where there are several: programs with the outcomes that the
//! rules of `docs/MEANING.md` give them, worked out by hand.

use crate::calls::{PLAIN, calls_hold};
use gm_rows::faults::{COMPETING, MORE_FAULTS};
use std::test::Fail;

#[test]
fn competing(rt: HostRuntime) -> Result<(), Fail> {
    calls_hold(&rt, rt.alloc(), PLAIN, "", COMPETING, 4)
}

#[test]
fn more_faults(rt: HostRuntime) -> Result<(), Fail> {
    calls_hold(&rt, rt.alloc(), PLAIN, "", MORE_FAULTS, 24)
}

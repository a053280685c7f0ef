//! Operators, literals, casts and values of each type: programs with the outcomes that the
//! rules of `docs/MEANING.md` give them, worked out by hand.

use crate::calls::{PLAIN, calls_hold};
use gm_rows::values::{MORE_VALUES, VALUES};
use std::test::Fail;

#[test]
fn values(rt: HostRuntime) -> Result<(), Fail> {
    calls_hold(&rt, rt.alloc(), PLAIN, "", VALUES, 22)
}

#[test]
fn more_values(rt: HostRuntime) -> Result<(), Fail> {
    calls_hold(&rt, rt.alloc(), PLAIN, "", MORE_VALUES, 24)
}

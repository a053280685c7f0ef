//! Argument reductions, which keep what belongs to a least or greatest value: programs with the outcomes that the rules
//! of `docs/MEANING.md` give them, worked out by hand.

use crate::calls::{PLAIN, calls_hold};
use gm_rows::argument_reductions::{EFFECTS, FAULTS, OFFERS};
use std::test::Fail;

#[test]
fn tuples_are_offered(rt: HostRuntime) -> Result<(), Fail> {
    calls_hold(&rt, rt.alloc(), PLAIN, "", OFFERS, 9)
}

#[test]
fn tuples_take_effect(rt: HostRuntime) -> Result<(), Fail> {
    calls_hold(&rt, rt.alloc(), PLAIN, "", EFFECTS, 9)
}

#[test]
fn entries_fault_in_their_order(rt: HostRuntime) -> Result<(), Fail> {
    calls_hold(&rt, rt.alloc(), PLAIN, "", FAULTS, 3)
}

//! Totals that fit in the end, and totals that do not: programs with the outcomes that the
//! rules of `docs/MEANING.md` give them, worked out by hand.

use crate::calls::{PLAIN, calls_hold};
use gm_rows::totals::TOTALS;
use std::test::Fail;

#[test]
fn totals(rt: HostRuntime) -> Result<(), Fail> {
    calls_hold(&rt, rt.alloc(), PLAIN, "", TOTALS, 17)
}

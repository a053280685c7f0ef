//! Values chosen by truth values, and the places of these.

use crate::calls::{chosen, places};
use crate::written::{flags, ints, longs, nodes, same};
use gm_columns::Column;
use std::process::Abort;
use std::test::Fail;

// Compares what truth values choose of two columns.
fn choice_is(
    rt: &(impl Abort + AllocGlobal),
    row: usize,
    truths: &[bool],
    yes: &Column,
    no: &Column,
    want: &str,
) -> Result<(), Fail> {
    let truths = flags(rt.alloc(), truths)?;
    let found = chosen(rt.alloc(), &truths, yes, no)?;
    same(rt, row, &found, want)
}

// Compares the places of truth values.
fn places_are(
    rt: &(impl Abort + AllocGlobal),
    row: usize,
    truths: &[bool],
    want: &str,
) -> Result<(), Fail> {
    let found = places(rt.alloc(), truths)?;
    same(rt, row, &found, want)
}

#[test]
fn numbers_chosen(rt: HostRuntime) -> Result<(), Fail> {
    let yes = ints(rt.alloc(), &[1, 2, 3])?;
    let no = ints(rt.alloc(), &[4, 5, 6])?;
    let found = "Column { cells: Ints([1, 5, 3]) }";
    choice_is(&rt, 0, &[true, false, true], &yes, &no, found)
}

#[test]
fn long_numbers_chosen(rt: HostRuntime) -> Result<(), Fail> {
    let yes = longs(rt.alloc(), &[1, 2, 3])?;
    let no = longs(rt.alloc(), &[4, 5, 6])?;
    let found = "Column { cells: Longs([4, 2, 6]) }";
    choice_is(&rt, 0, &[false, true, false], &yes, &no, found)
}

#[test]
fn truth_values_chosen(rt: HostRuntime) -> Result<(), Fail> {
    let some = flags(rt.alloc(), &[true, false, true])?;
    let found = "Column { cells: Flags([true, false, true]) }";
    choice_is(&rt, 0, &[true, false, true], &some, &some, found)
}

#[test]
fn nothing_chosen(rt: HostRuntime) -> Result<(), Fail> {
    let none = nodes(rt.alloc(), &[])?;
    choice_is(&rt, 0, &[], &none, &none, "Column { cells: Nodes([]) }")
}

#[test]
fn places_of_truth_values(rt: HostRuntime) -> Result<(), Fail> {
    places_are(&rt, 0, &[], "[]")?;
    places_are(&rt, 1, &[false, false], "[]")?;
    places_are(&rt, 2, &[true, true], "[0, 1]")?;
    places_are(&rt, 3, &[false, true, false, true], "[1, 3]")
}

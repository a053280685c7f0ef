//! Columns made of plain numbers, and comparisons of what comes out, as it is written out, with a text.

use gm_base::NoMemory;
use gm_columns::{Column, TypedCells};
use std::alloc::{AllocError, Global};
use std::fmt::Debug;
use std::process::Abort;
use std::test::Fail;

/// A column of numbers of 32 bits.
pub(crate) fn ints(alloc: Global, cells: &[i32]) -> Result<Column, NoMemory> {
    Ok(Column::of(TypedCells::Ints(Vec::from_slice(alloc, cells)?)))
}

/// A column of numbers of 64 bits.
pub(crate) fn longs(alloc: Global, cells: &[i64]) -> Result<Column, NoMemory> {
    Ok(Column::of(TypedCells::Longs(Vec::from_slice(alloc, cells)?)))
}

/// A column of truth values.
pub(crate) fn flags(alloc: Global, cells: &[bool]) -> Result<Column, NoMemory> {
    Ok(Column::of(TypedCells::Flags(Vec::from_slice(alloc, cells)?)))
}

/// A column of nodes by their indices. The greatest number is NIL.
pub(crate) fn nodes(alloc: Global, cells: &[u32]) -> Result<Column, NoMemory> {
    Ok(Column::of(TypedCells::Nodes(Vec::from_slice(alloc, cells)?)))
}

// A value as a text.
fn text_of<T: Debug>(alloc: Global, value: &T) -> Result<String, AllocError> {
    format!(in alloc; "{value:?}")
}

// Compares texts.
fn same_text(rt: &impl Abort, row: usize, found: &str, want: &str) {
    assert_eq!(rt; found, want, "row {row}");
}

/// Compares what a row of a table gives, written out, with a text.
pub(crate) fn same<T: Debug>(
    rt: &(impl Abort + AllocGlobal),
    row: usize,
    found: &T,
    want: &str,
) -> Result<(), Fail> {
    let text = text_of(rt.alloc(), found)?;
    same_text(rt, row, text.as_str(), want);
    Ok(())
}

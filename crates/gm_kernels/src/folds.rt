//! Columns folded into cells by a reduction.

ghost use Rattle.std.specs.Prelude.{◌≡◌, ◌<◌, All, IsTrue, length, map, Some, None, if◌then◌else◌};
ghost use Rattle.gm_value.specs.declared.values.Value.TheVariants.{I32, I64, Flag};
ghost use Rattle.gm_value.specs.declared.values.VType.TheVariants.{I32 as Int, I64 as Long, Flag as Truth, Node};
ghost use Rattle.gm_columns.specs.Cells.{node_in};
ghost use Rattle.gm_columns.specs.TypedRows.{typed_row};
ghost use Rattle.gm_kernels.specs.Folding.{folded_at, folds_into};

use crate::foldings::{Both, Either, Folding, Greatest, Least, Products, Sums};
use gm_columns::{Column, TypedCells};
use gm_value::{Reduce, VType};

// Folds values into cells at places, one after another, and answers whether one was out of range. There is no early end,
// and so no branch for a value.
#[inline(always)]
fn fold_cells<T: Copy, V: Copy, O: Folding<T, V>>(
    cells: &mut [T],
    places: &[u32],
    values: &[V],
) -> bool
    requires within { All (λ place. place < length cells.old) places.now }
    requires values { length values.now ≡ length places.now }
    ensures folded { folded_at O.op (map O.to cells.old) places.now (map O.from values.now) ≡ (if result then None else Some (map O.to cells.new)) }
    ensures length { length cells.new ≡ length cells.old }
{
    let rows = places.len();
    let mut faults = false;
    for row in 0..rows {
        let place = places[row] as usize;
        let (cell, fault) = O::fold(cells[place], values[row]);
        cells[place] = cell;
        faults |= fault;
    }
    faults
}

// The same in a vector.
#[inline(never)]
fn fold_row<T: Copy, V: Copy, O: Folding<T, V>>(
    cells: &mut Vec<T>,
    places: &[u32],
    values: &[V],
) -> bool
    requires within { All (λ place. place < length cells.old.items) places.now }
    requires values { length values.now ≡ length places.now }
    ensures { folded_at O.op (map O.to cells.old.items) places.now (map O.from values.now) ≡ (if result then None else Some (map O.to cells.new.items)) }
{
    fold_cells::<T, V, O>(cells, places, values)
}

// Folds numbers of 32 bits into cells at places.
fn fold_ints(op: Reduce, cells: &mut Vec<i32>, places: &[u32], values: &[i32]) -> bool
    requires within { All (λ place. place < length cells.old.items) places.now }
    requires values { length values.now ≡ length places.now }
    requires fits { IsTrue (folds_into op Int Int) }
    ensures { folded_at op (map (λ z. I32 z) cells.old.items) places.now (map (λ z. I32 z) values.now) ≡ (if result then None else Some (map (λ z. I32 z) cells.new.items)) }
{
    match op {
        Reduce::Sum => fold_row::<i32, i32, Sums>(cells, places, values),
        Reduce::Product => fold_row::<i32, i32, Products>(cells, places, values),
        Reduce::Min => fold_row::<i32, i32, Least>(cells, places, values),
        Reduce::Max => fold_row::<i32, i32, Greatest>(cells, places, values),
        _ => unreachable!(),
    }
}

// Folds numbers of 64 bits into cells at places.
fn fold_longs(op: Reduce, cells: &mut Vec<i64>, places: &[u32], values: &[i64]) -> bool
    requires within { All (λ place. place < length cells.old.items) places.now }
    requires values { length values.now ≡ length places.now }
    requires fits { IsTrue (folds_into op Long Long) }
    ensures { folded_at op (map (λ z. I64 z) cells.old.items) places.now (map (λ z. I64 z) values.now) ≡ (if result then None else Some (map (λ z. I64 z) cells.new.items)) }
{
    match op {
        Reduce::Sum => fold_row::<i64, i64, Sums>(cells, places, values),
        Reduce::Product => fold_row::<i64, i64, Products>(cells, places, values),
        Reduce::Min => fold_row::<i64, i64, Least>(cells, places, values),
        Reduce::Max => fold_row::<i64, i64, Greatest>(cells, places, values),
        _ => unreachable!(),
    }
}

// Folds numbers of 32 bits into sums of 64 bits at places.
fn fold_widened(op: Reduce, cells: &mut Vec<i64>, places: &[u32], values: &[i32]) -> bool
    requires within { All (λ place. place < length cells.old.items) places.now }
    requires values { length values.now ≡ length places.now }
    requires fits { IsTrue (folds_into op Long Int) }
    ensures { folded_at op (map (λ z. I64 z) cells.old.items) places.now (map (λ z. I32 z) values.now) ≡ (if result then None else Some (map (λ z. I64 z) cells.new.items)) }
{
    match op {
        Reduce::Sum => fold_row::<i64, i32, Sums>(cells, places, values),
        _ => unreachable!(),
    }
}

// Folds truth values into cells at places.
fn fold_flags(op: Reduce, cells: &mut Vec<bool>, places: &[u32], values: &[bool]) -> bool
    requires within { All (λ place. place < length cells.old.items) places.now }
    requires values { length values.now ≡ length places.now }
    requires fits { IsTrue (folds_into op Truth Truth) }
    ensures { folded_at op (map (λ b. Flag b) cells.old.items) places.now (map (λ b. Flag b) values.now) ≡ (if result then None else Some (map (λ b. Flag b) cells.new.items)) }
{
    match op {
        Reduce::And => fold_row::<bool, bool, Both>(cells, places, values),
        Reduce::Or => fold_row::<bool, bool, Either>(cells, places, values),
        _ => unreachable!(),
    }
}

// Folds nodes into cells at places.
fn fold_nodes(op: Reduce, cells: &mut Vec<u32>, places: &[u32], values: &[u32]) -> bool
    requires within { All (λ place. place < length cells.old.items) places.now }
    requires values { length values.now ≡ length places.now }
    requires fits { IsTrue (folds_into op Node Node) }
    ensures { folded_at op (map node_in cells.old.items) places.now (map node_in values.now) ≡ (if result then None else Some (map node_in cells.new.items)) }
{
    match op {
        Reduce::Max => fold_row::<u32, u32, Greatest>(cells, places, values),
        _ => unreachable!(),
    }
}

/// Whether values of a type can be folded into held ones of a type: both are of one that the reduction fits, or numbers of
/// 32 bits are summed in 64.
pub fn folds_into(op: Reduce, held: VType, vtype: VType) -> bool
    ensures { result ≡ folds_into op held vtype }
{
    match (op, held, vtype) {
        (Reduce::Sum, VType::I64, VType::I32) => true,
        _ => held == vtype && op.fits(held),
    }
}

/// Folds the values of a column into cells at places, one after another: that of row 0 into the cell at the first place.
/// Answers whether a result was out of the range of the cells' type on the way; the cells' values are free then.
pub fn fold_at(op: Reduce, cells: &mut TypedCells, places: &[u32], column: &Column) -> bool
    requires fits { IsTrue (folds_into op (typed_row cells.old).vtype column.now.vtype) }
    requires within { All (λ place. place < length (typed_row cells.old).values) places.now }
    requires rows { length column.now.values ≡ length places.now }
    ensures values { folded_at op (typed_row cells.old).values places.now column.now.values ≡ (if result then None else Some (typed_row cells.new).values) }
    ensures vtype { (typed_row cells.new).vtype ≡ (typed_row cells.old).vtype }
{
    match (cells, column.cells()) {
        (TypedCells::Ints(cells), TypedCells::Ints(values)) => fold_ints(op, cells, places, values),
        (TypedCells::Longs(cells), TypedCells::Longs(values)) => fold_longs(
            op, cells, places, values,
        ),
        (TypedCells::Longs(cells), TypedCells::Ints(values)) => fold_widened(
            op, cells, places, values,
        ),
        (TypedCells::Flags(cells), TypedCells::Flags(values)) => fold_flags(
            op, cells, places, values,
        ),
        (TypedCells::Nodes(cells), TypedCells::Nodes(values)) => fold_nodes(
            op, cells, places, values,
        ),
        _ => unreachable!(),
    }
}

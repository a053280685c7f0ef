//! Cells at some nodes, written from a column.

ghost use Rattle.std.specs.Prelude.{◌≡◌, ◌<◌, ◌↔◌, All, IsTrue, length, map, slice_index_or};
ghost use Rattle.gm_value.specs.declared.values.Value.{Value as AnyValue};
ghost use Rattle.gm_columns.specs.Cells.{values_of};
ghost use Rattle.gm_kernels.specs.Typed.{AreOf};
ghost use Rattle.gm_kernels.specs.Pointwise.{written_at};

use gm_columns::{Cells, Column, TypedCells};
use gm_value::VType;

// Writes cells at some places, one after another.
#[inline(never)]
fn write_at<T: Copy>(cells: &mut [T], places: &[u32], values: &[T])
    requires within { All (λ place. place < length cells.old) places.now }
    requires values { length values.now ≡ length places.now }
    ensures { cells.new ≡ written_at cells.old places.now values.now }
{
    let rows = places.len();
    for row in 0..rows {
        cells[places[row] as usize] = values[row];
    }
}

// The same in a vector.
#[tactic(auto, using(crate::proofs::Writing::written_long))]
fn write_row<T: Copy>(cells: &mut Vec<T>, places: &[u32], values: &[T])
    requires within { All (λ place. place < length cells.old.items) places.now }
    requires values { length values.now ≡ length places.now }
    ensures { cells.new.items ≡ written_at cells.old.items places.now values.now }
{
    write_at(cells, places, values);
}

/// Whether cells hold values of a type one by one, so that they can be written from a column of it.
pub fn are_of(cells: &Cells, vtype: VType) -> bool
    ensures { IsTrue result ↔ AreOf vtype cells.now }
{
    match (vtype, cells) {
        (VType::I32, Cells::Ints(_)) => true,
        (VType::I64, Cells::Longs(_)) => true,
        (VType::Flag, Cells::Flags(_)) => true,
        (VType::Node, Cells::Nodes(_)) => true,
        _ => false,
    }
}

/// Writes the values of a column at some nodes, one after another: that of row 0 at the first node.
#[tactic(auto, using(crate::proofs::Writing::written_values))]
pub fn put_column(cells: &mut Cells, nodes: &[u32], column: &Column)
    requires vtype { AreOf column.now.vtype cells.old }
    requires within { All (λ node. node < length (values_of cells.old)) nodes.now }
    requires rows { length column.now.values ≡ length nodes.now }
    ensures values { values_of cells.new ≡ written_at (values_of cells.old) nodes.now column.now.values }
    ensures vtype { AreOf column.now.vtype cells.new }
{
    match (cells, column.cells()) {
        (Cells::Ints(cells), TypedCells::Ints(values)) => write_row(cells, nodes, values),
        (Cells::Longs(cells), TypedCells::Longs(values)) => write_row(cells, nodes, values),
        (Cells::Flags(cells), TypedCells::Flags(values)) => write_row(cells, nodes, values),
        (Cells::Nodes(cells), TypedCells::Nodes(values)) => write_row(cells, nodes, values),
        _ => unreachable!(),
    }
}

//! Rows parted by flags, and put together again.

ghost use Rattle.std.specs.Prelude.{◌≡◌, ◌+◌, ◌≤◌, [], ◌∷◌, ◌++◌, IfOk, OnOk, length, map};
ghost use Rattle.std.specs.List.{range_with_len};
ghost use Rattle.gm_kernels.specs.Pointwise.{count_of, held, left_out, merged};

use gm_base::NoMemory;
use gm_columns::{Column, TypedCells};
use std::alloc::Global;

/// Rows parted by flags: those whose flag holds, and the others, both in their order.
#[derive(Debug, Drop)]
pub struct Parts {
    pub held: Vec<u32>,
    pub left_out: Vec<u32>,
}

/// The rows from 0 up to a count, ascending.
pub fn all_rows(alloc: Global, count: u32) -> Result<Vec<u32>, NoMemory>
    ensures { IfOk result (λ rows. rows.items ≡ range_with_len 0 count) }
{
    let mut rows = Vec::with_capacity(alloc, count as usize)?;
    for row in 0..count {
        rows.push(row)?;
    }
    Ok(rows)
}

// Adds a row to those whose flag holds or to the others.
#[inline(always)]
fn push_by(parts: &mut Parts, flag: bool, row: u32) -> Result<(), NoMemory>
    ensures held { OnOk result (parts.new.held.items ≡ parts.old.held.items ++ held (flag ∷ []) (row ∷ [])) }
    ensures left_out { OnOk result (parts.new.left_out.items ≡ parts.old.left_out.items ++ left_out (flag ∷ []) (row ∷ [])) }
{
    if flag {
        parts.held.push(row)?;
    } else {
        parts.left_out.push(row)?;
    }
    Ok(())
}

/// Parts rows by the flags beside them.
#[inline(never)]
pub fn partition(alloc: Global, flags: &[bool], rows: &[u32]) -> Result<Parts, NoMemory>
    requires { length rows.now ≡ length flags.now }
    ensures held { IfOk result (λ parts. parts.held.items ≡ held flags.now rows.now) }
    ensures left_out { IfOk result (λ parts. parts.left_out.items ≡ left_out flags.now rows.now) }
{
    let count = flags.len();
    let mut parts = Parts {
        held: Vec::with_capacity(alloc, count)?,
        left_out: Vec::with_capacity(alloc, count)?,
    };
    for row in 0..count {
        push_by(&mut parts, flags[row], rows[row])?;
    }
    Ok(parts)
}

// For each flag the next of some cells where it holds, else the next of others.
#[inline(never)]
fn merge_cells<T: Copy>(
    alloc: Global,
    flags: &[bool],
    some: &[T],
    others: &[T],
) -> Result<Vec<T>, NoMemory>
    requires some { length some.now ≡ count_of flags.now }
    requires rows { length some.now + length others.now ≡ length flags.now }
    ensures { IfOk result (λ row. row.items ≡ merged flags.now some.now others.now) }
{
    let rows = flags.len();
    let mut out = Vec::with_capacity(alloc, rows)?;
    let mut taken = 0;
    for row in 0..rows {
        if flags[row] {
            out.push(some[taken])?;
            taken += 1;
        } else {
            out.push(others[row - taken])?;
        }
    }
    Ok(out)
}

/// Puts together what was parted by flags: for each flag the next value of one column where it holds, else the next of
/// another of the same type.
#[tactic(auto, using(crate::proofs::Parting::merged_values))]
pub fn merge(
    alloc: Global,
    flags: &[bool],
    some: &Column,
    others: &Column,
) -> Result<Column, NoMemory>
    requires vtype { others.now.vtype ≡ some.now.vtype }
    requires some { length some.now.values ≡ count_of flags.now }
    requires rows { length some.now.values + length others.now.values ≡ length flags.now }
    ensures values { IfOk result (λ column. column.values ≡ merged flags.now some.now.values others.now.values) }
    ensures vtype { IfOk result (λ column. column.vtype ≡ some.now.vtype) }
{
    let cells = match (some.cells(), others.cells()) {
        (TypedCells::Ints(some), TypedCells::Ints(others)) => TypedCells::Ints(merge_cells(
            alloc, flags, some, others,
        )?),
        (TypedCells::Longs(some), TypedCells::Longs(others)) => TypedCells::Longs(merge_cells(
            alloc, flags, some, others,
        )?),
        (TypedCells::Flags(some), TypedCells::Flags(others)) => TypedCells::Flags(merge_cells(
            alloc, flags, some, others,
        )?),
        (TypedCells::Nodes(some), TypedCells::Nodes(others)) => TypedCells::Nodes(merge_cells(
            alloc, flags, some, others,
        )?),
        _ => unreachable!(),
    };
    Ok(Column::of(cells))
}

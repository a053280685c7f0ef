//! Operations on a row of plain cells, cell by cell.

ghost use Rattle.std.specs.Prelude.{◌≡◌, length, map, Option, Some, None, IfOk, if◌then◌else◌};
ghost use Rattle.std.specs.Option.{option_map};
ghost use Rattle.gm_value.specs.declared.values.Value.{Value};
ghost use Rattle.gm_value.specs.declared.values.Value.TheVariants.{I32, I64, Flag};
ghost use Rattle.gm_value.specs.declared.operations.Op1.{Op1};
ghost use Rattle.gm_value.specs.declared.operations.Op1.TheVariants.{Neg, Not, ToI32, ToI64};
ghost use Rattle.gm_value.specs.Operations.{result1};
ghost use Rattle.gm_kernels.specs.Pointwise.{given, applied1};

use gm_base::NoMemory;
use std::alloc::Global;

// An operation on a cell. A cell stands for a value.
pub(crate) trait Cellwise<T, R> {
    ghost op: { Op1 };

    ghost from: { T → Value };

    ghost to: { R → Value };

    // What the operation gives, and whether it faults. Where it does the cell is free.
    fn at(x: T) -> (R, bool)
        ensures { given (result1 op (from x)) ≡ (if result.1 then None else Some (to result.0)) };
}

// Writes what an operation gives on each cell, and answers whether it faults on one.
#[inline(always)]
fn write_cells<T: Copy, R: Copy, O: Cellwise<T, R>>(cells: &[T], out: &mut [R]) -> bool
    requires { length cells.now ≡ length out.old }
    ensures { applied1 O.op (map O.from cells.now) ≡ (if result then None else Some (map O.to out.new)) }
{
    let rows = out.len();
    let mut faults = false;
    for row in 0..rows {
        let (cell, fault) = O::at(cells[row]);
        out[row] = cell;
        faults |= fault;
    }
    faults
}

// What an operation gives on each cell of a row, unless it faults on one.
#[inline(never)]
pub(crate) fn each<T: Copy, R: Copy, O: Cellwise<T, R>>(
    alloc: Global,
    blank: R,
    cells: &[T],
) -> Result<Option<Vec<R>>, NoMemory>
    ensures { IfOk result (λ given. option_map (λ row. map O.to row.items) given ≡ applied1 O.op (map O.from cells.now)) }
{
    let mut out = vec![in alloc; blank; cells.len()]?;
    if write_cells::<T, R, O>(cells, &mut out) {
        return Ok(None);
    }
    Ok(Some(out))
}

pub(crate) struct Negatives;

impl Cellwise<i32, i32> for Negatives {
    ghost op = { Neg };

    ghost from = { λ z. I32 z };

    ghost to = { λ z. I32 z };

    fn at(x: i32) -> (i32, bool) {
        match x.checked_neg() {
            Some(negative) => (negative, false),
            None => (0, true),
        }
    }
}

impl Cellwise<i64, i64> for Negatives {
    ghost op = { Neg };

    ghost from = { λ z. I64 z };

    ghost to = { λ z. I64 z };

    fn at(x: i64) -> (i64, bool) {
        match x.checked_neg() {
            Some(negative) => (negative, false),
            None => (0, true),
        }
    }
}

pub(crate) struct Opposites;

impl Cellwise<bool, bool> for Opposites {
    ghost op = { Not };

    ghost from = { λ b. Flag b };

    ghost to = { λ b. Flag b };

    fn at(x: bool) -> (bool, bool) {
        (!x, false)
    }
}

pub(crate) struct Narrowed;

impl Cellwise<i32, i32> for Narrowed {
    ghost op = { ToI32 };

    ghost from = { λ z. I32 z };

    ghost to = { λ z. I32 z };

    fn at(x: i32) -> (i32, bool) {
        (x, false)
    }
}

impl Cellwise<i64, i32> for Narrowed {
    ghost op = { ToI32 };

    ghost from = { λ z. I64 z };

    ghost to = { λ z. I32 z };

    fn at(x: i64) -> (i32, bool) {
        match i32::try_from(x) {
            Ok(number) => (number, false),
            Err(_) => (0, true),
        }
    }
}

pub(crate) struct Widened;

impl Cellwise<i32, i64> for Widened {
    ghost op = { ToI64 };

    ghost from = { λ z. I32 z };

    ghost to = { λ z. I64 z };

    fn at(x: i32) -> (i64, bool) {
        (x as i64, false)
    }
}

impl Cellwise<i64, i64> for Widened {
    ghost op = { ToI64 };

    ghost from = { λ z. I64 z };

    ghost to = { λ z. I64 z };

    fn at(x: i64) -> (i64, bool) {
        (x, false)
    }
}

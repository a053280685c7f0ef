//! Operations on two rows of plain cells, pair by pair.

ghost use Rattle.std.specs.Prelude.{◌≡◌, ◌≢◌, length, map, Option, Some, None, IfOk, if◌then◌else◌};
ghost use Rattle.std.specs.Option.{option_map};
ghost use Rattle.gm_value.specs.declared.values.Value.{Value};
ghost use Rattle.gm_value.specs.declared.values.Value.TheVariants.{I32, I64, Flag};
ghost use Rattle.gm_value.specs.declared.operations.Op2.{Op2};
ghost use Rattle.gm_value.specs.declared.operations.Op2.TheVariants.{Add, Sub, Mul, Div, Rem, Eq, Ne, Lt, Le, Gt, Ge};
ghost use Rattle.gm_value.specs.Operations.{result2};
ghost use Rattle.gm_columns.specs.Cells.{node_in};
ghost use Rattle.gm_kernels.specs.Pointwise.{given, applied2};

use gm_base::NoMemory;
use std::alloc::Global;

// An operation on two cells. A cell stands for a value.
pub(crate) trait Pairwise<T, R> {
    ghost op: { Op2 };

    ghost from: { T → Value };

    ghost to: { R → Value };

    // What the operation gives, and whether it faults. Where it does the cell is free.
    fn at(x: T, y: T) -> (R, bool)
        ensures { given (result2 op (from x) (from y)) ≡ (if result.1 then None else Some (to result.0)) };
}

// Writes what an operation gives on each pair, and answers whether it faults on one. There is no early end, and so no
// branch for a pair.
#[inline(always)]
fn write_pairs<T: Copy, R: Copy, O: Pairwise<T, R>>(left: &[T], right: &[T], out: &mut [R]) -> bool
    requires left { length left.now ≡ length out.old }
    requires right { length right.now ≡ length out.old }
    ensures { applied2 O.op (map O.from left.now) (map O.from right.now) ≡ (if result then None else Some (map O.to out.new)) }
{
    let rows = out.len();
    let mut faults = false;
    for row in 0..rows {
        let (cell, fault) = O::at(left[row], right[row]);
        out[row] = cell;
        faults |= fault;
    }
    faults
}

// What an operation gives on each pair of two rows, unless it faults on one.
#[inline(never)]
pub(crate) fn pairs<T: Copy, R: Copy, O: Pairwise<T, R>>(
    alloc: Global,
    blank: R,
    left: &[T],
    right: &[T],
) -> Result<Option<Vec<R>>, NoMemory>
    requires { length left.now ≡ length right.now }
    ensures { IfOk result (λ given. option_map (λ row. map O.to row.items) given ≡ applied2 O.op (map O.from left.now) (map O.from right.now)) }
{
    let mut out = vec![in alloc; blank; left.len()]?;
    if write_pairs::<T, R, O>(left, right, &mut out) {
        return Ok(None);
    }
    Ok(Some(out))
}

pub(crate) struct Sums;

impl Pairwise<i32, i32> for Sums {
    ghost op = { Add };

    ghost from = { λ z. I32 z };

    ghost to = { λ z. I32 z };

    fn at(x: i32, y: i32) -> (i32, bool) {
        x.overflowing_add(y)
    }
}

impl Pairwise<i64, i64> for Sums {
    ghost op = { Add };

    ghost from = { λ z. I64 z };

    ghost to = { λ z. I64 z };

    fn at(x: i64, y: i64) -> (i64, bool) {
        x.overflowing_add(y)
    }
}

pub(crate) struct Differences;

impl Pairwise<i32, i32> for Differences {
    ghost op = { Sub };

    ghost from = { λ z. I32 z };

    ghost to = { λ z. I32 z };

    fn at(x: i32, y: i32) -> (i32, bool) {
        x.overflowing_sub(y)
    }
}

impl Pairwise<i64, i64> for Differences {
    ghost op = { Sub };

    ghost from = { λ z. I64 z };

    ghost to = { λ z. I64 z };

    fn at(x: i64, y: i64) -> (i64, bool) {
        x.overflowing_sub(y)
    }
}

pub(crate) struct Products;

impl Pairwise<i32, i32> for Products {
    ghost op = { Mul };

    ghost from = { λ z. I32 z };

    ghost to = { λ z. I32 z };

    fn at(x: i32, y: i32) -> (i32, bool) {
        x.overflowing_mul(y)
    }
}

impl Pairwise<i64, i64> for Products {
    ghost op = { Mul };

    ghost from = { λ z. I64 z };

    ghost to = { λ z. I64 z };

    fn at(x: i64, y: i64) -> (i64, bool) {
        x.overflowing_mul(y)
    }
}

pub(crate) struct Quotients;

impl Pairwise<i32, i32> for Quotients {
    ghost op = { Div };

    ghost from = { λ z. I32 z };

    ghost to = { λ z. I32 z };

    fn at(x: i32, y: i32) -> (i32, bool) {
        match x.checked_div(y) {
            Some(quotient) => (quotient, false),
            None => (0, true),
        }
    }
}

impl Pairwise<i64, i64> for Quotients {
    ghost op = { Div };

    ghost from = { λ z. I64 z };

    ghost to = { λ z. I64 z };

    fn at(x: i64, y: i64) -> (i64, bool) {
        match x.checked_div(y) {
            Some(quotient) => (quotient, false),
            None => (0, true),
        }
    }
}

pub(crate) struct Remainders;

impl Pairwise<i32, i32> for Remainders {
    ghost op = { Rem };

    ghost from = { λ z. I32 z };

    ghost to = { λ z. I32 z };

    fn at(x: i32, y: i32) -> (i32, bool) {
        if y == 0 {
            (0, true)
        } else {
            (x.wrapping_rem(y), false)
        }
    }
}

impl Pairwise<i64, i64> for Remainders {
    ghost op = { Rem };

    ghost from = { λ z. I64 z };

    ghost to = { λ z. I64 z };

    fn at(x: i64, y: i64) -> (i64, bool) {
        if y == 0 {
            (0, true)
        } else {
            (x.wrapping_rem(y), false)
        }
    }
}

pub(crate) struct Equal;

impl Pairwise<i32, bool> for Equal {
    ghost op = { Eq };

    ghost from = { λ z. I32 z };

    ghost to = { λ b. Flag b };

    fn at(x: i32, y: i32) -> (bool, bool) {
        (x == y, false)
    }
}

impl Pairwise<i64, bool> for Equal {
    ghost op = { Eq };

    ghost from = { λ z. I64 z };

    ghost to = { λ b. Flag b };

    fn at(x: i64, y: i64) -> (bool, bool) {
        (x == y, false)
    }
}

impl Pairwise<bool, bool> for Equal {
    ghost op = { Eq };

    ghost from = { λ b. Flag b };

    ghost to = { λ b. Flag b };

    fn at(x: bool, y: bool) -> (bool, bool) {
        (x == y, false)
    }
}

impl Pairwise<u32, bool> for Equal {
    ghost op = { Eq };

    ghost from = { node_in };

    ghost to = { λ b. Flag b };

    fn at(x: u32, y: u32) -> (bool, bool) {
        (x == y, false)
    }
}

pub(crate) struct Unequal;

impl Pairwise<i32, bool> for Unequal {
    ghost op = { Ne };

    ghost from = { λ z. I32 z };

    ghost to = { λ b. Flag b };

    fn at(x: i32, y: i32) -> (bool, bool) {
        (x != y, false)
    }
}

impl Pairwise<i64, bool> for Unequal {
    ghost op = { Ne };

    ghost from = { λ z. I64 z };

    ghost to = { λ b. Flag b };

    fn at(x: i64, y: i64) -> (bool, bool) {
        (x != y, false)
    }
}

impl Pairwise<bool, bool> for Unequal {
    ghost op = { Ne };

    ghost from = { λ b. Flag b };

    ghost to = { λ b. Flag b };

    fn at(x: bool, y: bool) -> (bool, bool) {
        (x != y, false)
    }
}

impl Pairwise<u32, bool> for Unequal {
    ghost op = { Ne };

    ghost from = { node_in };

    ghost to = { λ b. Flag b };

    fn at(x: u32, y: u32) -> (bool, bool) {
        (x != y, false)
    }
}

pub(crate) struct Less;

impl Pairwise<i32, bool> for Less {
    ghost op = { Lt };

    ghost from = { λ z. I32 z };

    ghost to = { λ b. Flag b };

    fn at(x: i32, y: i32) -> (bool, bool) {
        (x < y, false)
    }
}

impl Pairwise<i64, bool> for Less {
    ghost op = { Lt };

    ghost from = { λ z. I64 z };

    ghost to = { λ b. Flag b };

    fn at(x: i64, y: i64) -> (bool, bool) {
        (x < y, false)
    }
}

pub(crate) struct AtMost;

impl Pairwise<i32, bool> for AtMost {
    ghost op = { Le };

    ghost from = { λ z. I32 z };

    ghost to = { λ b. Flag b };

    fn at(x: i32, y: i32) -> (bool, bool) {
        (x <= y, false)
    }
}

impl Pairwise<i64, bool> for AtMost {
    ghost op = { Le };

    ghost from = { λ z. I64 z };

    ghost to = { λ b. Flag b };

    fn at(x: i64, y: i64) -> (bool, bool) {
        (x <= y, false)
    }
}

pub(crate) struct Greater;

impl Pairwise<i32, bool> for Greater {
    ghost op = { Gt };

    ghost from = { λ z. I32 z };

    ghost to = { λ b. Flag b };

    fn at(x: i32, y: i32) -> (bool, bool) {
        (x > y, false)
    }
}

impl Pairwise<i64, bool> for Greater {
    ghost op = { Gt };

    ghost from = { λ z. I64 z };

    ghost to = { λ b. Flag b };

    fn at(x: i64, y: i64) -> (bool, bool) {
        (x > y, false)
    }
}

pub(crate) struct AtLeast;

impl Pairwise<i32, bool> for AtLeast {
    ghost op = { Ge };

    ghost from = { λ z. I32 z };

    ghost to = { λ b. Flag b };

    fn at(x: i32, y: i32) -> (bool, bool) {
        (x >= y, false)
    }
}

impl Pairwise<i64, bool> for AtLeast {
    ghost op = { Ge };

    ghost from = { λ z. I64 z };

    ghost to = { λ b. Flag b };

    fn at(x: i64, y: i64) -> (bool, bool) {
        (x >= y, false)
    }
}

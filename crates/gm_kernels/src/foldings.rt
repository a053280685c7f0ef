//! Reductions of two cells.

ghost use Rattle.std.specs.Prelude.{◌≡◌, Option, Some, None, if◌then◌else◌};
ghost use Rattle.gm_value.specs.declared.values.Value.{Value};
ghost use Rattle.gm_value.specs.declared.values.Value.TheVariants.{I32, I64, Flag};
ghost use Rattle.gm_value.specs.declared.reductions.Reduce.{Reduce};
ghost use Rattle.gm_value.specs.declared.reductions.Reduce.TheVariants.{Sum, Product, Min, Max, And, Or};
ghost use Rattle.gm_value.specs.Numbers.{number_of};
ghost use Rattle.gm_columns.specs.Cells.{node_in};
ghost use Rattle.gm_kernels.specs.Folding.{folded};

// A reduction of a held cell and one more. Cells stand for values.
pub(crate) trait Folding<T, V> {
    ghost op: { Reduce };

    ghost to: { T → Value };

    ghost from: { V → Value };

    // What is held then, and whether the exact result is out of range. Where it is the cell is free.
    fn fold(held: T, cell: V) -> (T, bool)
        ensures { folded op (to held) (from cell) ≡ (if result.1 then None else Some (to result.0)) };
}

// The number that stands for the node whose index a cell holds: -1 for NIL.
#[inline(always)]
fn rank(cell: u32) -> i64
    ensures { result ≡ number_of (node_in cell) }
{
    if cell < u32::MAX { i64::from(cell) } else { -1 }
}

pub(crate) struct Sums;

impl Folding<i32, i32> for Sums {
    ghost op = { Sum };

    ghost to = { λ z. I32 z };

    ghost from = { λ z. I32 z };

    #[inline(always)]
    fn fold(held: i32, cell: i32) -> (i32, bool) {
        held.overflowing_add(cell)
    }
}

impl Folding<i64, i64> for Sums {
    ghost op = { Sum };

    ghost to = { λ z. I64 z };

    ghost from = { λ z. I64 z };

    #[inline(always)]
    fn fold(held: i64, cell: i64) -> (i64, bool) {
        held.overflowing_add(cell)
    }
}

impl Folding<i64, i32> for Sums {
    ghost op = { Sum };

    ghost to = { λ z. I64 z };

    ghost from = { λ z. I32 z };

    #[inline(always)]
    fn fold(held: i64, cell: i32) -> (i64, bool) {
        held.overflowing_add(i64::from(cell))
    }
}

pub(crate) struct Products;

impl Folding<i32, i32> for Products {
    ghost op = { Product };

    ghost to = { λ z. I32 z };

    ghost from = { λ z. I32 z };

    #[inline(always)]
    fn fold(held: i32, cell: i32) -> (i32, bool) {
        held.overflowing_mul(cell)
    }
}

impl Folding<i64, i64> for Products {
    ghost op = { Product };

    ghost to = { λ z. I64 z };

    ghost from = { λ z. I64 z };

    #[inline(always)]
    fn fold(held: i64, cell: i64) -> (i64, bool) {
        held.overflowing_mul(cell)
    }
}

pub(crate) struct Least;

impl Folding<i32, i32> for Least {
    ghost op = { Min };

    ghost to = { λ z. I32 z };

    ghost from = { λ z. I32 z };

    #[inline(always)]
    fn fold(held: i32, cell: i32) -> (i32, bool) {
        (if cell < held { cell } else { held }, false)
    }
}

impl Folding<i64, i64> for Least {
    ghost op = { Min };

    ghost to = { λ z. I64 z };

    ghost from = { λ z. I64 z };

    #[inline(always)]
    fn fold(held: i64, cell: i64) -> (i64, bool) {
        (if cell < held { cell } else { held }, false)
    }
}

pub(crate) struct Greatest;

impl Folding<i32, i32> for Greatest {
    ghost op = { Max };

    ghost to = { λ z. I32 z };

    ghost from = { λ z. I32 z };

    #[inline(always)]
    fn fold(held: i32, cell: i32) -> (i32, bool) {
        (if held < cell { cell } else { held }, false)
    }
}

impl Folding<i64, i64> for Greatest {
    ghost op = { Max };

    ghost to = { λ z. I64 z };

    ghost from = { λ z. I64 z };

    #[inline(always)]
    fn fold(held: i64, cell: i64) -> (i64, bool) {
        (if held < cell { cell } else { held }, false)
    }
}

impl Folding<u32, u32> for Greatest {
    ghost op = { Max };

    ghost to = { node_in };

    ghost from = { node_in };

    #[inline(always)]
    fn fold(held: u32, cell: u32) -> (u32, bool) {
        (if rank(held) < rank(cell) { cell } else { held }, false)
    }
}

pub(crate) struct Both;

impl Folding<bool, bool> for Both {
    ghost op = { And };

    ghost to = { λ b. Flag b };

    ghost from = { λ b. Flag b };

    #[inline(always)]
    fn fold(held: bool, cell: bool) -> (bool, bool) {
        (held & cell, false)
    }
}

pub(crate) struct Either;

impl Folding<bool, bool> for Either {
    ghost op = { Or };

    ghost to = { λ b. Flag b };

    ghost from = { λ b. Flag b };

    #[inline(always)]
    fn fold(held: bool, cell: bool) -> (bool, bool) {
        (held | cell, false)
    }
}

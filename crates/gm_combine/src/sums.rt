//! Rows of exact sums.

ghost use Rattle.std.specs.Prelude.{◌≡◌, ◌<◌, IfSome, ◌+◌, ◌≤◌, ◌^◌, pos, ◌+ℤ◌, length, slice_index_or, slice_set, unsigned_abs};
ghost use Rattle.gm_value.specs.declared.reductions.Reduce.TheVariants as reduce;
ghost use Rattle.gm_value.specs.Totals.{HasRoom};
ghost use Rattle.gm_combine.specs.Cells.{summed, sum_of, AreSums};
ghost use Rattle.gm_combine.specs.Folds.{HasRoomFor};

use crate::folds::TotalRow;
use crate::numbers::Number;
use gm_value::Total;

// How much is carried at once.
const CARRY: i128 = 18_446_744_073_709_551_616;

// The range of the low part.
const LEAST: i128 = -9_223_372_036_854_775_808;

const MOST: i128 = 9_223_372_036_854_775_807;

/// The exact sum at each place, as a number of 64 bits and how often 2 ^ 64 was carried, and a mark where something
/// came. Where nothing came it is 0.
#[derive(Drop)]
pub(crate) struct Sums {
    pub(crate) low: Vec<i64>,
    pub(crate) carried: Vec<i64>,
    pub(crate) marks: Vec<bool>,
}

impl Sums {
    // The sum at a place; None where nothing came.
    pub(crate) fn total(&self, place: usize) -> Option<Total>
        requires place { place < length self.now.low.items }
        requires room { HasRoomFor 0 (λ count. AreSums count self.now.low.items self.now.carried.items self.now.marks.items) }
        ensures total { result ≡ summed self.now.low.items self.now.carried.items self.now.marks.items place }
        ensures room { IfSome result HasRoom }
    {
        if self.marks[place] {
            let sum = total_sum(self.low[place], self.carried[place]);
            Some(Total::Sum(sum))
        } else {
            None
        }
    }
}

// A sum from its parts.
fn joined(low: i64, carried: i64) -> i128
    requires { unsigned_abs carried < 2 ^ 62 }
    ensures { result ≡ sum_of low carried }
{
    i128::from(low) + i128::from(carried) * CARRY
}

// The same, of few numbers.
fn total_sum(low: i64, carried: i64) -> i128
    requires { unsigned_abs carried < 2 ^ 62 }
    ensures sum { result ≡ sum_of low carried }
    ensures near { unsigned_abs result ≤ 2 ^ 126 }
{
    joined(low, carried)
}

// A sum of two numbers as a number of 64 bits and how often 2 ^ 64 is carried.
#[cold]
#[inline(never)]
fn far_sum(low: i64, number: i64) -> (i64, i64)
    ensures sum { sum_of result.0 result.1 ≡ number +ℤ low }
    ensures once { unsigned_abs result.1 ≤ 1 }
{
    let sum = i128::from(number) + i128::from(low);
    if sum > MOST {
        ((sum - CARRY) as i64, 1)
    } else if sum < LEAST {
        ((sum + CARRY) as i64, -1)
    } else {
        (sum as i64, 0)
    }
}

// The same, which is mostly the sum itself.
#[inline(always)]
fn sum_in_parts(low: i64, number: i64) -> (i64, i64)
    ensures sum { sum_of result.0 result.1 ≡ number +ℤ low }
    ensures once { unsigned_abs result.1 ≤ 1 }
{
    match number.checked_add(low) {
        Some(sum) => (sum, 0),
        None => far_sum(low, number),
    }
}

// Adds a carry at a place.
#[inline(always)]
fn carry_at(carried: &mut Vec<i64>, place: usize, carry: i64)
    requires place { place < length carried.old.items }
    requires once { unsigned_abs carry ≤ 1 }
    requires room { unsigned_abs (slice_index_or carried.old.items place (pos 0)) < 2 ^ 62 }
    ensures { carried.new.items ≡ slice_set carried.old.items place (carry +ℤ slice_index_or carried.old.items place (pos 0)) }
{
    if carry != 0 {
        carried[place] = carry + carried[place];
    }
}

impl<T: Number> TotalRow<T> for Sums {
    ghost serves = { λ r. r ≡ reduce.Sum };

    ghost width = { λ row. length row.low.items };

    ghost totals = { λ row. summed row.low.items row.carried.items row.marks.items };

    ghost holds = { λ row count. AreSums count row.low.items row.carried.items row.marks.items };

    #[inline(always)]
    fn add(&mut self, place: usize, value: T) {
        let (low, carry) = sum_in_parts(self.low[place], value.number());
        self.low[place] = low;
        self.marks[place] = true;
        carry_at(&mut self.carried, place, carry);
    }
}

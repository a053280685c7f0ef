//! Rows of least and of greatest values.

ghost use Rattle.std.specs.Prelude.{◌≡◌, ◌⊎◌, true, false, length};
ghost use Rattle.std.specs.Int.{int_min, int_max};
ghost use Rattle.gm_value.specs.Numbers.{number_of};
ghost use Rattle.gm_value.specs.declared.reductions.Reduce.TheVariants.{Min, Max, And, Or};
ghost use Rattle.gm_combine.specs.Cells.{picked};

use crate::folds::TotalRow;
use crate::numbers::Number;

/// The least value at each place, and a mark where there is one.
#[derive(Drop)]
pub(crate) struct Least<T> {
    pub(crate) cells: Vec<T>,
    pub(crate) marks: Vec<bool>,
}

/// The greatest value at each place, and a mark where there is one.
#[derive(Drop)]
pub(crate) struct Greatest<T> {
    pub(crate) cells: Vec<T>,
    pub(crate) marks: Vec<bool>,
}

// The lesser of a held value and a new one; the new one where none is held.
#[inline(always)]
fn lesser<T: Number>(is_held: bool, held: T, value: T) -> T
    ensures first { is_held ≡ false → number_of (T.value result) ≡ number_of (T.value value) }
    ensures more { is_held ≡ true → number_of (T.value result) ≡ int_min (number_of (T.value value)) (number_of (T.value held)) }
{
    if is_held && held.number() <= value.number() {
        held
    } else {
        value
    }
}

// The greater of a held value and a new one; the new one where none is held.
#[inline(always)]
fn greater<T: Number>(is_held: bool, held: T, value: T) -> T
    ensures first { is_held ≡ false → number_of (T.value result) ≡ number_of (T.value value) }
    ensures more { is_held ≡ true → number_of (T.value result) ≡ int_max (number_of (T.value value)) (number_of (T.value held)) }
{
    if is_held && value.number() <= held.number() {
        held
    } else {
        value
    }
}

impl<T: Number> TotalRow<T> for Least<T> {
    ghost serves = { λ r. (r ≡ Min) ⊎ (r ≡ And) };

    ghost width = { λ row. length row.cells.items };

    ghost totals = { λ row. picked T.value row.cells.items row.marks.items };

    ghost holds = { λ row count. length row.marks.items ≡ length row.cells.items };

    #[inline(always)]
    fn add(&mut self, place: usize, value: T) {
        let held = self.cells[place];
        let is_held = self.marks[place];
        self.cells[place] = lesser(is_held, held, value);
        self.marks[place] = true;
    }
}

impl<T: Number> TotalRow<T> for Greatest<T> {
    ghost serves = { λ r. (r ≡ Max) ⊎ (r ≡ Or) };

    ghost width = { λ row. length row.cells.items };

    ghost totals = { λ row. picked T.value row.cells.items row.marks.items };

    ghost holds = { λ row count. length row.marks.items ≡ length row.cells.items };

    #[inline(always)]
    fn add(&mut self, place: usize, value: T) {
        let held = self.cells[place];
        let is_held = self.marks[place];
        self.cells[place] = greater(is_held, held, value);
        self.marks[place] = true;
    }
}

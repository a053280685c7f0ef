//! Folding of many values into a row of totals.

ghost use Rattle.std.specs.Prelude.{◌≡◌, ◌<◌, ◌+◌, ℕ, All, Option, length, map};
ghost use Rattle.gm_value.specs.declared.reductions.Reduce.{Reduce};
ghost use Rattle.gm_value.specs.declared.totals.Total.{Total};
ghost use Rattle.gm_value.specs.Numbers.{number_of};
ghost use Rattle.gm_combine.specs.Folds.{placed, AddsOne, AddsAll, HasRoomFor};

use crate::numbers::Number;

/// A row of totals by place, of values of a type.
pub(crate) trait TotalRow<T: Number> {
    // the reductions of which the row holds totals
    ghost serves: { Reduce → Type 0 };

    // how many places there are
    ghost width: { Self → ℕ };

    // the totals by place
    ghost totals: { Self → ℕ → Option Total };

    // the row holds no more than so many values
    ghost holds: { Self → ℕ → Type 0 };

    /// Adds a value at a place.
    fn add(&mut self, place: usize, value: T)
        requires place { place < width self.old }
        requires room { HasRoomFor 1 (holds self.old) }
        ensures width { width self.new ≡ width self.old }
        ensures added { (r : Reduce) → serves r → AddsOne r (totals self.old) (place, number_of (T.value value)) (totals self.new) }
        ensures holds { (count : ℕ) → holds self.old count → holds self.new (count + 1) };
}

/// Adds values at places.
pub(crate) fn add_all<T: Number, R: TotalRow<T>>(row: &mut R, places: &[u32], values: &[T])
    requires places { All (λ place. place < R.width row.old) places.now }
    requires values { length values.now ≡ length places.now }
    requires room { HasRoomFor (length places.now) (R.holds row.old) }
    ensures width { R.width row.new ≡ R.width row.old }
    ensures added { (r : Reduce) → R.serves r
        → AddsAll r (R.totals row.old) (placed places.now (map (λ v. number_of (T.value v)) values.now)) (R.totals row.new) }
    ensures holds { (count : ℕ) → R.holds row.old count → R.holds row.new (count + length places.now) }
{
    for (i, place) in places.iter().enumerate() {
        row.add(*place as usize, values[i]);
    }
}

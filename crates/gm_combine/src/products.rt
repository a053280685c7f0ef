//! Rows of products.

ghost use Rattle.std.specs.Prelude.{◌≡◌, ◌<◌, IfSome, Some, true, false, pos, length, slice_get, slice_index_or};
ghost use Rattle.gm_value.specs.declared.reductions.Reduce.TheVariants as reduce;
ghost use Rattle.gm_value.specs.Totals.{HasRoom, Shows};
ghost use Rattle.gm_combine.specs.Cells.{multiplied, AreProducts};

use crate::folds::TotalRow;
use crate::numbers::Number;
use gm_value::{Reduce, Total, VType, total_add, total_unit};

/// The product at each place, and a mark where something came.
#[derive(Drop)]
pub(crate) struct Products {
    pub(crate) cells: Vec<Total>,
    pub(crate) marks: Vec<bool>,
}

impl Products {
    // The product at a place, 1 where nothing came.
    fn held(&self, place: usize) -> Total
        requires place { place < length self.now.cells.items }
        requires held { AreProducts self.now.cells.items self.now.marks.items }
        ensures some { slice_index_or self.now.marks.items place false ≡ true → slice_get self.now.cells.items place ≡ Some result }
        ensures none { slice_index_or self.now.marks.items place false ≡ false → Shows reduce.Product result (pos 1) }
        ensures room { HasRoom result }
    {
        if self.marks[place] {
            self.cells[place]
        } else {
            total_unit(Reduce::Product, VType::I64)
        }
    }

    // The product at a place; None where nothing came.
    pub(crate) fn total(&self, place: usize) -> Option<Total>
        requires place { place < length self.now.cells.items }
        requires held { AreProducts self.now.cells.items self.now.marks.items }
        ensures total { result ≡ multiplied self.now.cells.items self.now.marks.items place }
        ensures room { IfSome result HasRoom }
    {
        if self.marks[place] {
            Some(self.cells[place])
        } else {
            None
        }
    }
}

impl<T: Number> TotalRow<T> for Products {
    ghost serves = { λ r. r ≡ reduce.Product };

    ghost width = { λ row. length row.cells.items };

    ghost totals = { λ row. multiplied row.cells.items row.marks.items };

    ghost holds = { λ row count. AreProducts row.cells.items row.marks.items };

    fn add(&mut self, place: usize, value: T) {
        let held = self.held(place);
        self.cells[place] = total_add(Reduce::Product, held, value.value());
        self.marks[place] = true;
    }
}

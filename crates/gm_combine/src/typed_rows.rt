//! The rows of one kind of messages, for each type of values and each reduction.

ghost use Rattle.std.specs.Prelude.{◌≡◌, ◌<◌, ◌+◌, ◌^◌, ℕ, IfOk, IfSome, All, None, false, length, map, replicate, pos};
ghost use Rattle.gm_value.specs.declared.reductions.Reduce.{Reduce};
ghost use Rattle.gm_value.specs.declared.totals.Total.TheVariants as total;
ghost use Rattle.gm_value.specs.Numbers.{number_of};
ghost use Rattle.gm_value.specs.Totals.{HasRoom};
ghost use Rattle.gm_combine.specs.Cells.{picked};
ghost use Rattle.gm_combine.specs.Folds.{placed, AddsAll, HasRoomFor};
ghost use Rattle.gm_combine.specs.Rows.{Serves, width_of, totals, Holds, type_of_row, RowServes, row_width, row_totals, RowHolds};
ghost use Rattle.gm_combine.specs.Batches.{values_of, type_carried};

use crate::batches::Carried;
use crate::folds::add_all;
use crate::numbers::Number;
use crate::picks::{Greatest, Least};
use crate::products::Products;
use crate::sums::Sums;
use gm_base::NoMemory;
use gm_value::{Reduce, Total, VType, total_unit};
use std::alloc::Global;

/// The totals of values of a type by a reduction.
#[derive(Drop)]
pub(crate) enum NumberRow<T> {
    Least(Least<T>),
    Greatest(Greatest<T>),
    Sums(Sums),
    Products(Products),
}

// No mark at any place.
fn no_marks(alloc: Global, width: usize) -> Result<Vec<bool>, NoMemory>
    ensures { IfOk result (λ marks. marks.items ≡ replicate width false) }
{
    Ok(vec![in alloc; false; width]?)
}

// The same value at each place.
fn filled<T: Number>(alloc: Global, cell: T, width: usize) -> Result<Vec<T>, NoMemory>
    ensures { IfOk result (λ cells. length cells.items ≡ width) }
{
    Ok(vec![in alloc; cell; width]?)
}

// The number 0 at each place.
fn zeros(alloc: Global, width: usize) -> Result<Vec<i64>, NoMemory>
    ensures { IfOk result (λ cells. cells.items ≡ replicate width (pos 0)) }
{
    Ok(vec![in alloc; 0i64; width]?)
}

// The product of nothing at each place.
fn ones(alloc: Global, width: usize) -> Result<Vec<Total>, NoMemory>
    ensures { IfOk result (λ cells. length cells.items ≡ width) }
{
    let one = total_unit(Reduce::Product, VType::I64);
    Ok(vec![in alloc; one; width]?)
}

impl<T: Number> NumberRow<T> {
    // A row without any value. The places are filled with a cell that does not count.
    pub(crate) fn prepare(
        alloc: Global,
        reduce: Reduce,
        cell: T,
        width: usize,
    ) -> Result<NumberRow<T>, NoMemory>
        ensures serves { IfOk result (λ row. Serves row reduce) }
        ensures wide { IfOk result (λ row. width_of row ≡ width) }
        ensures none { IfOk result (λ row. (place : ℕ) → totals T.value row place ≡ None) }
        ensures holds { IfOk result (λ row. Holds row 0) }
    {
        match reduce {
            Reduce::Min | Reduce::And => {
                let cells = filled(alloc, cell, width)?;
                let marks = no_marks(alloc, width)?;
                Ok(NumberRow::Least(Least { cells, marks }))
            }
            Reduce::Max | Reduce::Or => {
                let cells = filled(alloc, cell, width)?;
                let marks = no_marks(alloc, width)?;
                Ok(NumberRow::Greatest(Greatest { cells, marks }))
            }
            Reduce::Sum => {
                let low = zeros(alloc, width)?;
                let carried = zeros(alloc, width)?;
                let marks = no_marks(alloc, width)?;
                Ok(NumberRow::Sums(Sums {
                    low,
                    carried,
                    marks,
                }))
            }
            Reduce::Product => {
                let cells = ones(alloc, width)?;
                let marks = no_marks(alloc, width)?;
                Ok(NumberRow::Products(Products { cells, marks }))
            }
        }
    }

    // Adds values at places.
    pub(crate) fn add(&mut self, places: &[u32], values: &[T])
        requires places { All (λ place. place < width_of self.old) places.now }
        requires values { length values.now ≡ length places.now }
        requires room { HasRoomFor (length places.now) (Holds self.old) }
        ensures width { width_of self.new ≡ width_of self.old }
        ensures serves { (r : Reduce) → Serves self.old r → Serves self.new r }
        ensures added { (r : Reduce) → Serves self.old r
            → AddsAll r (totals T.value self.old) (placed places.now (map (λ v. number_of (T.value v)) values.now)) (totals T.value self.new) }
        ensures holds { (count : ℕ) → Holds self.old count → Holds self.new (count + length places.now) }
    {
        match self {
            NumberRow::Least(row) => add_all(row, places, values),
            NumberRow::Greatest(row) => add_all(row, places, values),
            NumberRow::Sums(row) => add_all(row, places, values),
            NumberRow::Products(row) => add_all(row, places, values),
        }
    }

    // The total at a place; None where no value came.
    pub(crate) fn total(&self, place: usize) -> Option<Total>
        requires place { place < width_of self.now }
        requires room { HasRoomFor 0 (Holds self.now) }
        ensures total { result ≡ totals T.value self.now place }
        ensures room { IfSome result HasRoom }
    {
        match self {
            NumberRow::Least(row) => picked(&row.cells, &row.marks, place),
            NumberRow::Greatest(row) => picked(&row.cells, &row.marks, place),
            NumberRow::Sums(row) => row.total(place),
            NumberRow::Products(row) => row.total(place),
        }
    }
}

// The least or the greatest value at a place, where it is marked.
fn picked<T: Number>(cells: &[T], marks: &[bool], place: usize) -> Option<Total>
    requires place { place < length cells.now }
    requires marks { length marks.now ≡ length cells.now }
    ensures total { result ≡ picked T.value cells.now marks.now place }
    ensures room { IfSome result HasRoom }
{
    if marks[place] {
        Some(Total::Small(cells[place].value()))
    } else {
        None
    }
}

/// The totals of values of one of the types.
#[derive(Drop)]
pub(crate) enum TypedRow {
    Ints(NumberRow<i32>),
    Longs(NumberRow<i64>),
    Flags(NumberRow<bool>),
    Nodes(NumberRow<Option<u32>>),
}

impl TypedRow {
    // A row without any value.
    pub(crate) fn prepare(
        alloc: Global,
        reduce: Reduce,
        vtype: VType,
        width: usize,
    ) -> Result<TypedRow, NoMemory>
        ensures vtype { IfOk result (λ row. type_of_row row ≡ vtype) }
        ensures serves { IfOk result (λ row. RowServes row reduce) }
        ensures wide { IfOk result (λ row. row_width row ≡ width) }
        ensures none { IfOk result (λ row. (place : ℕ) → row_totals row place ≡ None) }
        ensures holds { IfOk result (λ row. RowHolds row 0) }
    {
        match vtype {
            VType::I32 => Ok(TypedRow::Ints(NumberRow::prepare(alloc, reduce, 0, width)?)),
            VType::I64 => Ok(TypedRow::Longs(NumberRow::prepare(alloc, reduce, 0, width)?)),
            VType::Flag => Ok(TypedRow::Flags(NumberRow::prepare(alloc, reduce, false, width)?)),
            VType::Node => Ok(TypedRow::Nodes(NumberRow::prepare(alloc, reduce, None, width)?)),
        }
    }

    // Adds values of the row's type at places.
    pub(crate) fn add(&mut self, places: &[u32], values: &Carried)
        requires vtype { type_carried values.now ≡ type_of_row self.old }
        requires places { All (λ place. place < row_width self.old) places.now }
        requires values { length (values_of values.now) ≡ length places.now }
        requires room { HasRoomFor (length places.now) (RowHolds self.old) }
        ensures vtype { type_of_row self.new ≡ type_of_row self.old }
        ensures width { row_width self.new ≡ row_width self.old }
        ensures serves { (r : Reduce) → RowServes self.old r → RowServes self.new r }
        ensures added { (r : Reduce) → RowServes self.old r
            → AddsAll r (row_totals self.old) (placed places.now (map number_of (values_of values.now))) (row_totals self.new) }
        ensures holds { (count : ℕ) → RowHolds self.old count → RowHolds self.new (count + length places.now) }
    {
        match (self, values) {
            (TypedRow::Ints(row), Carried::Ints(cells)) => row.add(places, cells),
            (TypedRow::Longs(row), Carried::Longs(cells)) => row.add(places, cells),
            (TypedRow::Flags(row), Carried::Flags(cells)) => row.add(places, cells),
            (TypedRow::Nodes(row), Carried::Nodes(cells)) => row.add(places, cells),
            _ => unreachable!(),
        }
    }

    // The total at a place; None where no value came.
    pub(crate) fn total(&self, place: usize) -> Option<Total>
        requires place { place < row_width self.now }
        requires room { HasRoomFor 0 (RowHolds self.now) }
        ensures total { result ≡ row_totals self.now place }
        ensures room { IfSome result HasRoom }
    {
        match self {
            TypedRow::Ints(row) => row.total(place),
            TypedRow::Longs(row) => row.total(place),
            TypedRow::Flags(row) => row.total(place),
            TypedRow::Nodes(row) => row.total(place),
        }
    }
}

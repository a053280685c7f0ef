//! Values by row or by node, as rows of plain numbers of one type.
//!
//! A [`Column`] has values of one type and grows by a row at a time; its [`TypedCells`] are for loops over all of them. [`Cells`] have a value for each node that can be
//! written: one value for all nodes, a row of numbers of one type, or values of any type. [`Values`] are finished.
#![tactic(auto)]

mod cells;
mod columns;
mod nodes;

pub use cells::Cells;
pub use columns::{Column, TypedCells, Values};

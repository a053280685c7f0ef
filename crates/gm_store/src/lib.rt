//! The store of a run: values of scalars and of properties at nodes, with writes that can be taken back.
//!
//! A property is a row of plain numbers of its type, or one value while all nodes have the same. A row can be seen
//! and replaced as a whole ([`Cells`]). A write is logged while a mark is set, and [`Store`] takes the writes since
//! the mark back in reverse order, each exactly. A read or a write takes constant time, and taking back is linear
//! in the writes. What the store holds is the store of `gm_semantics`.
#![tactic(auto)]

mod laws;
mod rows;
mod store;

pub use laws::{logged_writes_are_reversible, rolling_back_restores};
pub use store::Store;

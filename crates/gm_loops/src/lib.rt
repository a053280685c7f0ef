//! Expressions and parallel loops of a program, evaluated: an interpreter with fast paths for whole columns.
//!
//! A loop goes over nodes, with a filter and a body, on a store. [`Going::parallel`] leaves the store after the
//! loop, or its least fault, exactly as `gm_semantics` defines it (`parallel`), for every body, filter and list of
//! nodes. Nothing is asked of types.
//!
//! The general path runs one iteration after another. Each sees the store as it was when the loop began and its own
//! writes, which are logged and taken back at its end. Then all writes stand, totals are taken and deferred writes
//! come last.
//!
//! Fast paths give the same result in less time. Each is taken where the form of the program allows it:
//!
//! - `faultless`: expressions that cannot fault are evaluated without looking for faults;
//! - `shorts`: an iteration that does one thing, a write at its own node or a contribution, does not touch the
//!   store;
//! - `columns`: an expression that cannot fault, over all nodes at once, is a column of typed cells;
//! - `renewals`: a group assignment, or a loop that is one, gives the property its column as a whole;
//! - `folds`: a reduction over all nodes takes the elements of a column;
//! - `filters`: the filter of an outermost loop is evaluated as a column, before its iterations.
//!
//! Time goes with the parts of filter and body that the iterations evaluate. Nothing is copied for an iteration.
#![tactic(auto)]

mod around;
mod asking;
mod bodies;
mod bounds;
mod columns;
mod doing;
mod expressions;
mod faultless;
mod filters;
mod folds;
mod goings;
mod loops;
mod own;
mod parts;
mod ranges;
mod renewals;
mod runnings;
mod scopes;
mod shorts;
mod sights;
mod targets;
mod tuples;
mod turns;

pub use around::{Around, Body};
pub use asking::goes_outward;
pub use bounds::bound_of;
pub use goings::Going;
pub use loops::LoopNodes;
pub use parts::{Answer, is_true};
pub use scopes::Scope;
pub use sights::{EdgeColumn, Setting, Sight};
pub use tuples::Tuple;

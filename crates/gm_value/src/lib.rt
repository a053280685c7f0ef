//! Values, their types, and the operations and reductions on them, with exact checked arithmetic: a result out of
//! its type's range is a fault, and nothing wraps. Running totals keep sums and products of any order exactly until
//! they are closed. The laws of bags, and of taking contributions by rank, are contracts of functions with empty
//! bodies. No call takes memory.
#![tactic(auto)]

mod faults;
mod laws;
mod operations;
mod reductions;
mod totals;
mod tuples;
mod values;

pub use faults::FaultKind;
pub use laws::{
    bags_have_no_order, divisions_cut_toward_zero, operations_keep_types, reductions_are_monoids,
    slots_have_no_order, taking_goes_by_ranks, totals_have_room, tuples_have_no_order,
};
pub use operations::{Op1, Op2, apply1, apply2};
pub use reductions::{Reduce, fold_in, unit};
pub use totals::{Total, total_add, total_close, total_unit};
pub use tuples::fold_tuple;
pub use values::{VType, Value};

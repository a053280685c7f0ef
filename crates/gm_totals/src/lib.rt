//! Running totals: what reduction assignments contribute to their targets, kept as exact totals until the loop
//! ends.
//!
//! A contribution is one or several slots (a scalar, or a property at a node) with as many values, a reduction, and
//! the number of its statement. The slots of one contribution count as one target. [`Totals::give`] adds one to one
//! slot, and [`Totals::give_tuple`] one to several, in any order. [`Totals::closed`] gives writes for the slots, with
//! the values after the totals were taken in the order of their statements, and the least fault of those that do not
//! fit.
//!
//! A target's totals, one for each statement, stand in a list: of one slot the exact total, of several the tuple that
//! is kept of the contributed ones. An index table with one row per property gives the position of the totals of the
//! targets that begin with a slot, so `give` finds them at once, without hashing. [`Totals::clear`] does not touch the
//! table: an entry of it counts only where the totals at its position begin with its slot. Giving takes constant time,
//! apart from a search among the statements of the target (and among all targets, where two targets begin with one
//! slot, which checked programs never have in one loop); closing goes once over all totals. Of two targets that have
//! the same slot the slot belongs to the one that was given first: it is written last.
//!
//! They meet the definition of taking contributions in `gm_semantics`: a total stands exactly for the bag of what was
//! given (`specs/Standing.antt`).
#![tactic(auto)]

mod contributions;
mod entries;
mod faults;
mod places;
mod pots;
mod slots;
mod totals;

pub use contributions::Contribution;
pub use entries::close_tuple;
pub use faults::{lesser, total_fault};
pub use totals::{Closed, Totals};

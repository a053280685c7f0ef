//! Operations on whole columns: each is a small loop by index over rows of plain numbers of one type, with its equation
//! over lists of values. Nothing here knows programs or graphs.
//!
//! 1. [`constant`] and [`constant_if`] make columns; [`gather`] and [`gather_between`] read them from cells at nodes.
//! 2. [`apply1`] and [`apply2`] are the checked operations, value by value; they answer nothing where a value faults.
//! 3. [`choose`] takes rows of two columns by flags, and [`places_of`] tells where flags hold. [`partition`] parts rows by
//!    flags, [`pick`] reads numbers at the rows of a part, [`gm_columns::Column::picked`] values, and [`merge`] puts two parts together again.
//! 4. [`append`] puts rows behind others, and [`expand`] repeats each as often as a count says.
//! 5. [`put_column`] writes a column into cells that [`are_of`] its type; [`fold_at`] folds one into cells at places, and
//!    [`reduce`] into one value, where it [`folds_into`] them.
//!
//! Most loops have no early end and no branch for a row, which leaves them to vector instructions. All take time and memory
//! linear in the rows that go in and come out.
#![tactic(auto)]

mod appends;
mod cellwise;
mod constants;
mod foldings;
mod folds;
mod gathering;
mod operations;
mod pairwise;
mod partitions;
mod reductions;
mod selections;
mod writes;

pub use appends::{append, expand};
pub use constants::{constant, constant_if};
pub use folds::{fold_at, folds_into};
pub use gathering::{copy, gather, gather_between, pick};
pub use operations::{apply1, apply2};
pub use partitions::{Parts, all_rows, merge, partition};
pub use reductions::reduce;
pub use selections::{choose, flags_of, places_of};
pub use writes::{are_of, put_column};

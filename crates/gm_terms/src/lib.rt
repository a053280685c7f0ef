//! Expressions of a program as those of its image.
//!
//! `gm_lowering` says what term an expression has by where its leaves are found: in the master list, at a vertex, in an each,
//! or at the receiver of a message (`Terms`, `Blocks`). Here is the code (`terms`).
#![tactic(auto)]

mod terms;

pub use terms::{Environment, Stand, lower_all, lower_expr, lower_or_zero, own_degree};

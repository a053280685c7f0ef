//! Where the variables of a program lie in its image.
//!
//! `gm_lowering` says which number each variable has, as a global, a register, a field or a column: its rank among those of
//! its sort (`Layouts`). Here is the code: the numbers stand in tables that are made once (`layouts`), the node properties
//! that a program names are gathered in one pass (`names`), and so are the slots that are needed besides those of variables
//! (`sizes`).
#![tactic(auto)]

mod layouts;
mod names;
mod sizes;

pub use layouts::{Layout, column_types, field_types, global_types, register_types};
pub use sizes::{next, small};

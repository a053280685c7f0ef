//! Programs in their last form as images.
//!
//! `gm_lowering` says what image a program has (`Lowered`). Here is the call that makes it: inputs and outputs (`items`), and
//! the image put together from the layout, the kinds of messages and the parts of the statements (`images`). What is known of
//! the image stands as clauses of that call.
#![tactic(auto)]

mod images;
mod items;

pub use images::lower;

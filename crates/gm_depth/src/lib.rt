//! How deep the expressions of accepted programs are, and how deep their Ifs nest.
#![tactic(auto)]

mod laws;

pub use laws::{expressions_are_shallow, ifs_nest_little};

//! Types: each name's declaration, each part's type, and the least rule that is broken.
#![tactic(auto)]

mod assembled;
mod assignments;
mod declarations;
mod expressions;
mod kinds;
mod leaves;
mod lists;
mod names;
mod narrow;
mod notes;
mod parts;
mod procedures;
mod reductions;
mod roles;
mod statements;
mod targets;

pub use procedures::typed;

//! The tree that a program text spells, and the program that it stands for.
//!
//! `surface` is the tree of the text: names as they are written, with the places that later rules name. `tree` is
//! the program that all passes read: names are variables, types are known, and each place at which something may
//! fault has a key. Keys ascend as the text does. `kinds` has what the rules of typing speak of, `accesses` how
//! loops use variables, and `ways` where reductions are evaluated. `forms` makes programs that keep what their
//! names promise.
//!
//! The definitions of the rules on these trees stand here (`specs/`), below all passes that meet them: names and
//! types (`Names`, `Kinds`, `Typing`, `Statements`, `Procedures`), accesses and races (`Accesses`, `Races`), the
//! ways of messages (`Ways`) and canonical form (`Canonical`).
#![tactic(auto)]

pub mod accesses;
pub mod forms;
pub mod kinds;
pub mod surface;
pub mod tree;
pub mod ways;

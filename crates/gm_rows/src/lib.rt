//! Rows of the tests of the whole program, as texts: what is given and what is wanted of it. They stand apart from the code
//! that reads them, the tests in the file of the same name of `gm_tests`, since a text is no work to prove.
#![tactic(auto)]

pub mod argument_reductions;
pub mod calls;
pub mod checks;
pub mod compiled;
pub mod cuts;
pub mod faults;
pub mod first;
pub mod gates;
pub mod hostile;
pub mod image_rows;
pub mod inputs;
pub mod language;
pub mod loops;
pub mod matrix_market;
pub mod observers;
pub mod phases;
pub mod readings;
pub mod reductions;
pub mod searches;
pub mod totals;
pub mod values;
pub mod words;
pub mod workers;

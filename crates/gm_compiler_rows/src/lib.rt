//! Rows of the tests of the compiler, as texts: programs with what is written of their runs, and images of programs. They
//! stand apart from the code that reads them, the tests of `gm_pass_tests` and `gm_lower_tests`, since a text is no work to
//! prove.
#![tactic(auto)]

pub mod example_images;
pub mod images;
pub mod passes;
pub mod programs;

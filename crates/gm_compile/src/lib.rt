//! The compiler: the passes in their order, from the program of an accepted text to the image that stands for it.
//!
//! Each step is one call whose contract rests on those of the passes: the program means the same for every graph, all
//! arguments and every bound, and has the form that the next pass asks for. `compile` runs them all.
//!
//! | step | what comes out |
//! |---|---|
//! | `desugar` | no group assignments, reductions that give a value, and random reads |
//! | `bfs_out` | no searches: loops over levels |
//! | `dissect` | loops of own statements, and inner loops that go one way each |
//! | `flip` | no loops that pull |
//! | `outward` | loops ask at their node what they can before they look at edges |
//! | `lower` | the image: kinds of messages, places, blocks and the master list |
//! | `merge` | consecutive supersteps as one, wherever they may be |
//! | `give_combiners` | a combiner for each kind of messages that may have one |
#![tactic(auto)]

mod images;
pub mod laws;
pub mod passes;

pub use images::compile;

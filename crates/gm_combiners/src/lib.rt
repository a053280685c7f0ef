//! Combiners for the kinds of messages of an image.
//!
//! A sound image goes in, and the same image comes out but for its kinds: each has a combiner wherever rule I8 lets it
//! have one. One walk over the handlers keeps for each kind what may still combine its messages (`candidates`), and then
//! each kind gets its combiner (`images`). The definition is `specs/Combiners.antt`; the laws (`laws`) say that the image
//! stays sound, that it has the same runs, and that no kind is left without a combiner that it may have. Time is linear
//! in the handlers and the kinds, whatever the lines.
#![tactic(auto)]

mod candidates;
mod images;
pub mod laws;

pub use images::give_combiners;

//! The lowering of cut and flipped trees into images: the image of a program, and the laws that its run is the
//! program's. No code stands here.
#![tactic(auto)]

pub mod laws;

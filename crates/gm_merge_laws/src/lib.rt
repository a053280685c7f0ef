//! Two consecutive supersteps as one: when they may be joined, the image after it, and the law that a run's outcome
//! stays the same. No code stands here.
#![tactic(auto)]

pub mod laws;

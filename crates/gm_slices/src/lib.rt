//! Inner loops that go several ways are written in slices: the last step before loops that pull are flipped.
//!
//! A program comes in whose loops are parted: own statements under one mask stand together, and each inner loop is the
//! body of a loop of its own. Each inner loop that goes several ways becomes inner loops in turn, one for each group of
//! neighbouring statements that go one way (`in_lean_slices` of `gm_cut`, where its law stands too).
//!
//! In the order of work: `slices` walks over the body to its groups; `slicing` makes the slice of a group behind others, of
//! which `keeping` keeps what serves; `needs` gathers what that reads; `calm` asks what can fault. `ways` asks whether the
//! inner loops of a program go one way.
#![tactic(auto)]

mod calm;
mod keeping;
mod loops;
mod members;
mod needs;
pub mod slices;
mod slicing;
pub mod ways;

//! What all other crates stand on: places in a text, the rules that a text may break, statuses, lists and
//! texts that contracts see as lists, and the gate that workers pass.
#![tactic(auto)]

mod gates;
mod lists;
mod places;
mod rules;
mod statuses;
mod wants;

pub use gates::{Gate, OpenGate};
pub use lists::{Items, Text};
pub use places::Place;
pub use rules::{Refusal, Rule, Stop};
pub use statuses::Status;
pub use wants::{Failed, NoMemory};

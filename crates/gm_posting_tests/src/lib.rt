//! Tests of posting and shifts: workers in threads that send letters to one another.
#![tactic(auto)]

#[cfg(test)]
mod exchanges;
mod letters;
#[cfg(test)]
mod meetings;

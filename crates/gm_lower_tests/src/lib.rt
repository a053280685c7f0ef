//! Tests of the compiler from a program's text to the run of its image.
#![tactic(auto)]

#[cfg(test)]
mod bodies;
#[cfg(test)]
mod compare;
#[cfg(test)]
mod compiled;
#[cfg(test)]
mod examples;
#[cfg(test)]
mod images;
#[cfg(test)]
mod listings;
#[cfg(test)]
mod programs;
#[cfg(test)]
mod runs;

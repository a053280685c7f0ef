//! Tests of the compiler's last pass: where variables lie in an image, and which places it has.
#![tactic(auto)]

#[cfg(test)]
mod layouts;
#[cfg(test)]
mod places;

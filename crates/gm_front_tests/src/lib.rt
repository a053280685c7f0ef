//! Tests of the front end: tokens, the grammar, types, races, the ways of reductions.
#![tactic(auto)]

#[cfg(test)]
mod accesses;
#[cfg(test)]
mod argument_reductions;
#[cfg(test)]
mod canonical_form;
#[cfg(test)]
mod grammar;
#[cfg(test)]
mod language_examples;
#[cfg(test)]
mod procedures;
#[cfg(test)]
mod races;
#[cfg(test)]
mod rows;
#[cfg(test)]
mod tokens;
#[cfg(test)]
mod types;
#[cfg(test)]
mod verdicts;
#[cfg(test)]
mod ways;

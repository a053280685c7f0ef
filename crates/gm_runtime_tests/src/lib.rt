//! Tests of what the evaluator stands on: stores, running totals, totals of tuples, levels of a search.
#![tactic(auto)]

#[cfg(test)]
mod argument_totals;
#[cfg(test)]
mod running_totals;
#[cfg(test)]
mod search_levels;
#[cfg(test)]
mod stores;

//! Tests of what is read and written around a run: graphs and their texts, words and arguments, listings.
#![tactic(auto)]

#[cfg(test)]
mod arguments;
#[cfg(test)]
mod borders;
#[cfg(test)]
mod command_lines;
#[cfg(test)]
mod compare;
#[cfg(test)]
mod demos;
#[cfg(test)]
mod edge_lists;
#[cfg(test)]
mod graph_texts;
#[cfg(test)]
mod graphs;
#[cfg(test)]
mod inputs;
#[cfg(test)]
mod listings;
#[cfg(test)]
mod matrix_market;
#[cfg(test)]
mod partitions;

//! Tests of the compiler's passes: programs as texts, run before and after passes, and the trees that come out.
#![tactic(auto)]

#[cfg(test)]
mod accesses;
#[cfg(test)]
mod branches;
#[cfg(test)]
mod compare;
#[cfg(test)]
mod compounds;
#[cfg(test)]
mod conditions;
#[cfg(test)]
mod deferred;
#[cfg(test)]
mod dissecting;
#[cfg(test)]
mod flips;
#[cfg(test)]
mod folds;
#[cfg(test)]
mod forms;
#[cfg(test)]
mod groups;
#[cfg(test)]
mod hoisting;
#[cfg(test)]
mod large;
#[cfg(test)]
mod left;
#[cfg(test)]
mod levels;
#[cfg(test)]
mod literals;
#[cfg(test)]
mod locals;
#[cfg(test)]
mod neighbours;
#[cfg(test)]
mod passes;
#[cfg(test)]
mod picks;
#[cfg(test)]
mod pieces;
#[cfg(test)]
mod programs;
#[cfg(test)]
mod pulling;
#[cfg(test)]
mod reads;
#[cfg(test)]
mod rows;
#[cfg(test)]
mod runs;
#[cfg(test)]
mod search_faults;
#[cfg(test)]
mod slices;
#[cfg(test)]
mod sources;
#[cfg(test)]
mod staying;
#[cfg(test)]
mod trees;

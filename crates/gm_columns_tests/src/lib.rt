//! Tests of operations on whole columns, and of messages in columns.
#![tactic(auto)]

#[cfg(test)]
mod calls;
#[cfg(test)]
mod foldings;
#[cfg(test)]
mod messages;
#[cfg(test)]
mod operations;
#[cfg(test)]
mod partitions;
#[cfg(test)]
mod rows;
#[cfg(test)]
mod selections;
#[cfg(test)]
mod written;

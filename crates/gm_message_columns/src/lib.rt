//! Messages in columns.
//!
//! [`MessageColumns`] are messages of one kind whose values have the same types: a column of the nodes to which they go,
//! and a column for each value. They are made of columns that are there, and lent as columns, so that loops over all
//! messages of a kind are loops over plain numbers. [`Messages`] are some messages in columns and behind them others of any
//! kind: what a worker sends to another, in the order of sending. [`Joining`] joins such lists to one.
//!
//! # Cost
//!
//! A message in columns takes 4 bytes, and those of its values in columns of their types. Rows that are picked where none
//! are yet, and lists that are joined, are copied column by column, without a test for a message. Adding rows to others of
//! their sort is a push into each column: nothing is searched for, and no list of values is made. Columns that come first
//! are moved in whole.
#![tactic(auto)]

mod columns;
mod growing;
mod joining;
mod messages;

pub use columns::MessageColumns;
pub use joining::Joining;
pub use messages::Messages;

//! The limits on a text and on its numbers.

/// The most bytes that a program text may have.
pub const MAX_TEXT: usize = 1_048_576;

/// The greatest number that a program text may hold.
pub const MAX_NUMBER: u64 = 9_223_372_036_854_775_807;

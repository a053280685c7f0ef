//! The tokens of a program text: each the longest that may stand at its place, with blanks and comments between.
#![tactic(auto)]

mod bytes;
mod limits;
mod lookups;
mod numbers;
mod parts;
mod passes;
mod scanned;
mod scanner;
mod words;

pub use limits::{MAX_NUMBER, MAX_TEXT};
pub use scanned::Tokens;
pub use scanner::scan;
pub use words::{NAMES, SYMBOLS, TokenKind, Word};

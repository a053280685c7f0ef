//! The rules of images: an image becomes a sound one, or the first line of its text that breaks a rule is named.
#![tactic(auto)]

mod blocks;
mod counts;
mod expressions;
mod firsts;
mod fits;
mod images;
mod items;
mod leaves;
mod lines;
mod master;
mod ranges;
mod scopes;
mod sorts;
mod stops;

pub use counts::is_countable;
pub use images::verify;
pub use stops::VerifyStop;

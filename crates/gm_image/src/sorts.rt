//! What is known of an expression's type.

use gm_value::VType;

/// What is known of an expression's type.
#[derive(Clone, Copy, Debug, PartialEq, Eq)]
pub enum Sort {
    /// Its type.
    Known(VType),
    /// Nothing: an index in it is out of range, or a leaf in it stands where it may not, which other rules say.
    Unknown,
    /// It has no type, since types in it do not fit.
    Clash,
}

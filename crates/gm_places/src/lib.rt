//! The places of a program at which something may fault, by their indices in the image.
//!
//! `gm_lowering` says what places a loop or a statement has, and in which order (`Places`, `Bodies`). Here is the code: spots
//! are gathered from expressions (`spots`) and from bodies (`spreads`), and sorted once, so that an index is found by binary
//! search (`segments`).
#![tactic(auto)]

mod segments;
mod spots;
mod spreads;

pub use segments::Places;
pub use spots::{
    Spot, add_spots_in, add_spots_in_all, add_spots_in_option, spot_at, spot_of_total,
};
pub use spreads::{BodySite, add_spots_of};

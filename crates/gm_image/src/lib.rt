//! Images: vertex programs as they are run and as their texts spell them, and the rules that a sound one keeps.
#![tactic(auto)]

mod images;
mod items;
mod lines;
mod numbers;
mod rules;
mod shapes;
mod sorts;
mod sound;

pub use images::{Block, Handler, Image, InputItem, Kind, OutputItem};
pub use items::{Holder, Item};
pub use lines::{Direction, Expr, MasterLine, VertexLine};
pub use rules::{Broken, ImageRule};
pub use shapes::{Leaf, One, Shape, Two};
pub use sorts::Sort;
pub use sound::Sound;

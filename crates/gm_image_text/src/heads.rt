//! What words say: the version of a text, and the first word of an expression or of a line.

use gm_image::Direction;
use gm_value::{Reduce, VType};

// A version of the text. The first has no reductions of several slots.
#[derive(Clone, Copy)]
pub enum Version {
    One,
    Two,
}

// An expression without parts.
#[derive(Clone, Copy)]
pub enum Leaf {
    NodeCount,
    EdgeCount,
    Id,
    OutDegree,
    InDegree,
    Neighbour,
}

// An expression with an index alone.
#[derive(Clone, Copy)]
pub enum Indexed {
    Global,
    Field,
    Register,
    Message,
    Column,
}

// An operation on one part.
#[derive(Clone, Copy)]
pub enum One {
    NodeAt,
    ToLong,
    Not,
}

// An operation on one part that may fault at a place.
#[derive(Clone, Copy)]
pub enum PlacedOne {
    Live,
    Neg,
    ToInt,
}

// An operation on two parts.
#[derive(Clone, Copy)]
pub enum Two {
    Eq,
    Ne,
    Lt,
    Gt,
    Le,
    Ge,
    And,
    Or,
}

// An operation on two parts that may fault at a place.
#[derive(Clone, Copy)]
pub enum PlacedTwo {
    Add,
    Sub,
    Mul,
    Div,
    Rem,
}

// What the first word of an expression says of it.
#[derive(Clone, Copy)]
pub enum Head {
    Constant,
    Leaf(Leaf),
    Indexed(Indexed),
    One(One),
    PlacedOne(PlacedOne),
    Two(Two),
    PlacedTwo(PlacedTwo),
    Choice,
}

// What the first word of a vertex line says of it.
#[derive(Clone, Copy)]
pub enum VertexHead {
    SetField,
    Fold,
    Pick,
    SetRegister,
    Put,
    PickPut,
    Send,
    Skip,
    Each,
}

// What the first word of a master line says of it.
#[derive(Clone, Copy)]
pub enum MasterHead {
    SetGlobal,
    Step,
    Jump,
    Test,
    Turn,
    Back,
    Finish,
}

// Where an input starts, or an output ends.
#[derive(Clone, Copy)]
pub enum InputHead {
    Scalar,
    Node,
    Edge,
}

#[derive(Clone, Copy)]
pub enum OutputHead {
    Scalar,
    Node,
}

pub const VERSIONS: [(&[u8], Version); 2] = [(b"1", Version::One), (b"2", Version::Two)];

pub const HEADS: [(&[u8], Head); 32] = [
    (b"c", Head::Constant),
    (b"g", Head::Indexed(Indexed::Global)),
    (b"nn", Head::Leaf(Leaf::NodeCount)),
    (b"ne", Head::Leaf(Leaf::EdgeCount)),
    (b"f", Head::Indexed(Indexed::Field)),
    (b"id", Head::Leaf(Leaf::Id)),
    (b"out", Head::Leaf(Leaf::OutDegree)),
    (b"inn", Head::Leaf(Leaf::InDegree)),
    (b"r", Head::Indexed(Indexed::Register)),
    (b"m", Head::Indexed(Indexed::Message)),
    (b"nb", Head::Leaf(Leaf::Neighbour)),
    (b"w", Head::Indexed(Indexed::Column)),
    (b"node", Head::One(One::NodeAt)),
    (b"live", Head::PlacedOne(PlacedOne::Live)),
    (b"+", Head::PlacedTwo(PlacedTwo::Add)),
    (b"-", Head::PlacedTwo(PlacedTwo::Sub)),
    (b"*", Head::PlacedTwo(PlacedTwo::Mul)),
    (b"/", Head::PlacedTwo(PlacedTwo::Div)),
    (b"%", Head::PlacedTwo(PlacedTwo::Rem)),
    (b"neg", Head::PlacedOne(PlacedOne::Neg)),
    (b"int", Head::PlacedOne(PlacedOne::ToInt)),
    (b"long", Head::One(One::ToLong)),
    (b"==", Head::Two(Two::Eq)),
    (b"!=", Head::Two(Two::Ne)),
    (b"<", Head::Two(Two::Lt)),
    (b">", Head::Two(Two::Gt)),
    (b"<=", Head::Two(Two::Le)),
    (b">=", Head::Two(Two::Ge)),
    (b"not", Head::One(One::Not)),
    (b"&&", Head::Two(Two::And)),
    (b"||", Head::Two(Two::Or)),
    (b"?", Head::Choice),
];

pub const TYPES: [(&[u8], VType); 4] = [
    (b"I", VType::I32),
    (b"L", VType::I64),
    (b"B", VType::Flag),
    (b"N", VType::Node),
];

pub const REDUCTIONS: [(&[u8], Reduce); 6] = [
    (b"sum", Reduce::Sum),
    (b"product", Reduce::Product),
    (b"min", Reduce::Min),
    (b"max", Reduce::Max),
    (b"and", Reduce::And),
    (b"or", Reduce::Or),
];

pub const COMBINERS: [(&[u8], Option<Reduce>); 7] = [
    (b"-", None),
    (b"sum", Some(Reduce::Sum)),
    (b"product", Some(Reduce::Product)),
    (b"min", Some(Reduce::Min)),
    (b"max", Some(Reduce::Max)),
    (b"and", Some(Reduce::And)),
    (b"or", Some(Reduce::Or)),
];

pub const FLAGS: [(&[u8], bool); 2] = [(b"True", true), (b"False", false)];

pub const VERTEX_HEADS: [(&[u8], VertexHead); 9] = [
    (b"set", VertexHead::SetField),
    (b"fold", VertexHead::Fold),
    (b"pick", VertexHead::Pick),
    (b"reg", VertexHead::SetRegister),
    (b"put", VertexHead::Put),
    (b"pickput", VertexHead::PickPut),
    (b"send", VertexHead::Send),
    (b"skip", VertexHead::Skip),
    (b"each", VertexHead::Each),
];

pub const MASTER_HEADS: [(&[u8], MasterHead); 7] = [
    (b"set", MasterHead::SetGlobal),
    (b"step", MasterHead::Step),
    (b"jump", MasterHead::Jump),
    (b"test", MasterHead::Test),
    (b"loop", MasterHead::Turn),
    (b"back", MasterHead::Back),
    (b"end", MasterHead::Finish),
];

pub const INPUT_HEADS: [(&[u8], InputHead); 3] = [
    (b"scalar", InputHead::Scalar),
    (b"node", InputHead::Node),
    (b"edge", InputHead::Edge),
];

pub const OUTPUT_HEADS: [(&[u8], OutputHead); 2] = [
    (b"scalar", OutputHead::Scalar),
    (b"node", OutputHead::Node),
];

pub const WAYS: [(&[u8], Direction); 2] = [(b"out", Direction::Out), (b"in", Direction::In)];

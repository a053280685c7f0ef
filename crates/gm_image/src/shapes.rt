//! The shape of an expression: what it is, and its operands.

ghost use Rattle.std.specs.Prelude.{◌≡◌};
ghost use Rattle.gm_image.specs.Views.{term};
ghost use Rattle.gm_image.specs.Parts.{depth};
ghost use Rattle.gm_image.specs.Ranges.{ValueInRange};
ghost use Rattle.gm_image.specs.declared.shapes.Leaf.TheVariants as leaf;
ghost use Rattle.gm_image.specs.declared.shapes.Shape.TheVariants as shape;
ghost use Rattle.gm_image.specs.Shapes.{shape_term, one_place, two_place, HasOperandsBelow, ShapeInRange};

use crate::lines::Expr;
use gm_value::{Op1, Op2, Value};

/// An expression without operands.
#[derive(Clone, Copy)]
pub enum Leaf {
    /// A constant. The one of a node is NIL.
    Const(Value),
    /// A global.
    Global(u32),
    /// How many nodes the graph has.
    NodeCount,
    /// How many edges the graph has.
    EdgeCount,
    /// A field of the vertex.
    Field(u32),
    /// The vertex itself.
    Id,
    /// The vertex's out-degree.
    OutDegree,
    /// The vertex's in-degree.
    InDegree,
    /// A register of the vertex.
    Register(u32),
    /// A value of the message.
    Message(u32),
    /// The neighbour.
    Neighbour,
    /// The edge's value in a column.
    Column(u32),
}

/// An operation on one value. One that may fault has the index of its place.
#[derive(Clone, Copy)]
pub enum One {
    /// The node with an index.
    NodeAt,
    /// A node that is not NIL.
    Live(u32),
    /// An operation on one value.
    Op(Op1, Option<u32>),
}

/// An operation on two values. One that may fault has the index of its place.
#[derive(Clone, Copy)]
pub enum Two {
    /// An operation on two values.
    Op(Op2, Option<u32>),
    /// Whether both hold. The second counts only where the first holds.
    And,
    /// Whether one holds. The second counts only where the first does not hold.
    Or,
}

impl One {
    /// The index of its place, where it may fault.
    pub fn place(self) -> Option<u32>
        ensures { result ≡ one_place self }
    {
        match self {
            One::NodeAt => None,
            One::Live(place) => Some(place),
            One::Op(_, place) => place,
        }
    }
}

impl Two {
    /// The index of its place, where it may fault.
    pub fn place(self) -> Option<u32>
        ensures { result ≡ two_place self }
    {
        match self {
            Two::Op(_, place) => place,
            Two::And | Two::Or => None,
        }
    }
}

/// What an expression is at its root: a leaf, or an operation with its operands from left to right.
#[derive(Clone, Copy)]
pub enum Shape<'a> {
    /// No operands.
    Leaf(Leaf),
    /// One operand.
    One(One, &'a Expr),
    /// Two operands.
    Two(Two, &'a Expr, &'a Expr),
    /// By the first, which is a truth value, the second or the third.
    Choose(&'a Expr, &'a Expr, &'a Expr),
}

// A constant, whose number is read.
fn constant<'a>(value: Value) -> Shape<'a>
    ensures same { result ≡ shape.Leaf (leaf.Const value) }
    ensures numbers { ValueInRange value }
{
    match value {
        Value::I32(number) => Shape::Leaf(Leaf::Const(Value::I32(number))),
        Value::I64(number) => Shape::Leaf(Leaf::Const(Value::I64(number))),
        Value::Flag(flag) => Shape::Leaf(Leaf::Const(Value::Flag(flag))),
        Value::At(node) => Shape::Leaf(Leaf::Const(Value::At(node))),
    }
}

impl Expr {
    /// The shape of the expression. It takes no memory.
    pub fn shape(&self) -> Shape<'_>
        ensures same { shape_term result ≡ term self.now }
        ensures operands { HasOperandsBelow (depth (term self.now)) result }
        ensures numbers { ShapeInRange result }
    {
        match self {
            Expr::Const(value) => constant(*value),
            Expr::Global(i) => Shape::Leaf(Leaf::Global(*i)),
            Expr::NodeCount => Shape::Leaf(Leaf::NodeCount),
            Expr::EdgeCount => Shape::Leaf(Leaf::EdgeCount),
            Expr::Field(i) => Shape::Leaf(Leaf::Field(*i)),
            Expr::Id => Shape::Leaf(Leaf::Id),
            Expr::OutDegree => Shape::Leaf(Leaf::OutDegree),
            Expr::InDegree => Shape::Leaf(Leaf::InDegree),
            Expr::Register(i) => Shape::Leaf(Leaf::Register(*i)),
            Expr::Message(i) => Shape::Leaf(Leaf::Message(*i)),
            Expr::Neighbour => Shape::Leaf(Leaf::Neighbour),
            Expr::Column(i) => Shape::Leaf(Leaf::Column(*i)),
            Expr::NodeAt(a) => Shape::One(One::NodeAt, a),
            Expr::Live(place, a) => Shape::One(One::Live(*place), a),
            Expr::Add(place, a, b) => Shape::Two(Two::Op(Op2::Add, Some(*place)), a, b),
            Expr::Sub(place, a, b) => Shape::Two(Two::Op(Op2::Sub, Some(*place)), a, b),
            Expr::Mul(place, a, b) => Shape::Two(Two::Op(Op2::Mul, Some(*place)), a, b),
            Expr::Div(place, a, b) => Shape::Two(Two::Op(Op2::Div, Some(*place)), a, b),
            Expr::Rem(place, a, b) => Shape::Two(Two::Op(Op2::Rem, Some(*place)), a, b),
            Expr::Neg(place, a) => Shape::One(One::Op(Op1::Neg, Some(*place)), a),
            Expr::ToInt(place, a) => Shape::One(One::Op(Op1::ToI32, Some(*place)), a),
            Expr::ToLong(a) => Shape::One(One::Op(Op1::ToI64, None), a),
            Expr::Eq(a, b) => Shape::Two(Two::Op(Op2::Eq, None), a, b),
            Expr::Ne(a, b) => Shape::Two(Two::Op(Op2::Ne, None), a, b),
            Expr::Lt(a, b) => Shape::Two(Two::Op(Op2::Lt, None), a, b),
            Expr::Gt(a, b) => Shape::Two(Two::Op(Op2::Gt, None), a, b),
            Expr::Le(a, b) => Shape::Two(Two::Op(Op2::Le, None), a, b),
            Expr::Ge(a, b) => Shape::Two(Two::Op(Op2::Ge, None), a, b),
            Expr::Not(a) => Shape::One(One::Op(Op1::Not, None), a),
            Expr::And(a, b) => Shape::Two(Two::And, a, b),
            Expr::Or(a, b) => Shape::Two(Two::Or, a, b),
            Expr::Choose(c, a, b) => Shape::Choose(c, a, b),
        }
    }
}

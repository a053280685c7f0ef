//! The reductions of many values to one.

ghost use Rattle.std.specs.Prelude.{◌≡◌, IsTrue, pos};
ghost use Rattle.gm_value.specs.Numbers.{number_of, type_of};
ghost use Rattle.gm_value.specs.Reductions.{combined, picks, reduces, unit_of};

use crate::values::{VType, Value};

/// A reduction of many values to one.
#[derive(Clone, Copy, Debug, PartialEq, Eq)]
pub enum Reduce {
    /// The sum of all.
    Sum,
    /// The product of all.
    Product,
    /// The least.
    Min,
    /// The greatest; of nodes the one of the greatest index, with NIL below all nodes.
    Max,
    /// Whether all are true.
    And,
    /// Whether any is true.
    Or,
}

impl Reduce {
    /// Whether the reduction fits a type: Sum, Product, Min and Max fit numbers, Max nodes too, And and Or truth
    /// values.
    pub fn fits(self, t: VType) -> bool
        ensures { result ≡ reduces self t }
    {
        match self {
            Reduce::Sum | Reduce::Product | Reduce::Min => t.is_numeric(),
            Reduce::Max => t != VType::Flag,
            Reduce::And | Reduce::Or => t == VType::Flag,
        }
    }

    /// Whether the reduction picks one of its members, and so never leaves their type.
    pub fn picks(self) -> bool
        ensures { result ≡ picks self }
    {
        match self {
            Reduce::Sum | Reduce::Product => false,
            Reduce::Min | Reduce::Max | Reduce::And | Reduce::Or => true,
        }
    }
}

// The value of a type for which the number 0 stands.
fn zero_number(t: VType) -> Value
    ensures typed { type_of result ≡ t }
    ensures number { number_of result ≡ pos 0 }
{
    match t {
        VType::I32 => Value::I32(0),
        VType::I64 => Value::I64(0),
        VType::Flag => Value::Flag(false),
        VType::Node => Value::At(Some(0)),
    }
}

// The value of a type for which the number 1 stands.
fn one_number(t: VType) -> Value
    ensures typed { type_of result ≡ t }
    ensures number { number_of result ≡ pos 1 }
{
    match t {
        VType::I32 => Value::I32(1),
        VType::I64 => Value::I64(1),
        VType::Flag => Value::Flag(true),
        VType::Node => Value::At(Some(1)),
    }
}

/// The value that a reduction gives over nothing: 0 for Sum, 1 for Product, for Min and And the greatest value of
/// the type, for Max and Or the least. The greatest truth value is True, the least node NIL.
pub fn unit(r: Reduce, t: VType) -> Value
    ensures typed { type_of result ≡ t }
    ensures number { number_of result ≡ unit_of r t }
{
    match r {
        Reduce::Sum => zero_number(t),
        Reduce::Product => one_number(t),
        Reduce::Min | Reduce::And => t.greatest(),
        Reduce::Max | Reduce::Or => t.least(),
    }
}

/// Two values of one type reduced to one of them, by a reduction that picks one of its members: for Min and And
/// the lesser, for Max and Or the greater. NIL is below all nodes, and nodes are in the order of their indices.
pub fn fold_in(r: Reduce, a: Value, b: Value) -> Value
    requires picks { IsTrue (picks r) }
    requires same_type { type_of a ≡ type_of b }
    ensures typed { type_of result ≡ type_of a }
    ensures number { number_of result ≡ combined r (number_of a) (number_of b) }
{
    let b_is_less = b.number() < a.number();
    match r {
        Reduce::Min | Reduce::And => if b_is_less { b } else { a },
        _ => if b_is_less { a } else { b },
    }
}

//! The operations on one value and on two.

ghost use Rattle.std.specs.Prelude.{◌≡◌, ◌≢◌, ◌^◌, ◌≤◌, pos, neg_ℤ, unsigned_abs, ◌+ℤ◌, ◌-ℤ◌, ◌*ℤ◌, int_div, int_rem};
ghost use Rattle.gm_value.specs.Numbers.{checked};
ghost use Rattle.gm_value.specs.Operations.{fits1, fits2, type1, type2, result1, result2, unless_zero};

use crate::faults::FaultKind;
use crate::values::{VType, Value};

/// An operation on one value.
#[derive(Clone, Copy, Debug, PartialEq, Eq)]
pub enum Op1 {
    /// The number with the other sign.
    Neg,
    /// The other truth value.
    Not,
    /// The same number as a value of 32 bits.
    ToI32,
    /// The same number as a value of 64 bits.
    ToI64,
}

/// An operation on two values.
#[derive(Clone, Copy, Debug, PartialEq, Eq)]
pub enum Op2 {
    /// The sum.
    Add,
    /// The difference.
    Sub,
    /// The product.
    Mul,
    /// The quotient, cut toward zero.
    Div,
    /// The remainder, with the dividend's sign.
    Rem,
    /// Whether they are equal.
    Eq,
    /// Whether they differ.
    Ne,
    /// Whether the first is less.
    Lt,
    /// Whether the first is at most the second.
    Le,
    /// Whether the first is greater.
    Gt,
    /// Whether the first is at least the second.
    Ge,
}

impl Op1 {
    /// Whether the operation fits a type: arithmetic and casts take numbers, Not takes a truth value.
    pub fn fits(self, t: VType) -> bool
        ensures { result ≡ fits1 self t }
    {
        match self {
            Op1::Neg | Op1::ToI32 | Op1::ToI64 => t.is_numeric(),
            Op1::Not => t == VType::Flag,
        }
    }

    /// The type of what the operation gives on a value of a type.
    pub fn result_type(self, t: VType) -> VType
        ensures { result ≡ type1 self t }
    {
        match self {
            Op1::Neg => t,
            Op1::Not => VType::Flag,
            Op1::ToI32 => VType::I32,
            Op1::ToI64 => VType::I64,
        }
    }
}

impl Op2 {
    /// Whether the operation fits two types: arithmetic and order take two numbers of one type, Eq and Ne two values
    /// of one type.
    pub fn fits(self, t: VType, u: VType) -> bool
        ensures { result ≡ fits2 self t u }
    {
        match self {
            Op2::Eq | Op2::Ne => t == u,
            _ => t == u && t.is_numeric(),
        }
    }

    /// The type of what the operation gives on two values of a type.
    pub fn result_type(self, t: VType) -> VType
        ensures { result ≡ type2 self t }
    {
        match self {
            Op2::Add | Op2::Sub | Op2::Mul | Op2::Div | Op2::Rem => t,
            _ => VType::Flag,
        }
    }
}

// The arithmetic of whole numbers of at most 64 bits, in 128 bits. A sum takes a larger right side, for totals.

fn negative(x: i128) -> i128
    requires { unsigned_abs x ≤ 2 ^ 63 }
    ensures { result ≡ neg_ℤ x }
{
    -x
}

pub(crate) fn sum(x: i128, y: i128) -> i128
    requires left { unsigned_abs x ≤ 2 ^ 63 }
    requires right { unsigned_abs y ≤ 2 ^ 126 }
    ensures { result ≡ x +ℤ y }
{
    x + y
}

fn difference(x: i128, y: i128) -> i128
    requires left { unsigned_abs x ≤ 2 ^ 63 }
    requires right { unsigned_abs y ≤ 2 ^ 63 }
    ensures { result ≡ x -ℤ y }
{
    x - y
}

pub(crate) fn product(x: i128, y: i128) -> i128
    requires left { unsigned_abs x ≤ 2 ^ 63 }
    requires right { unsigned_abs y ≤ 2 ^ 63 }
    ensures { result ≡ x *ℤ y }
{
    x * y
}

fn quotient(x: i128, y: i128) -> i128
    requires left { unsigned_abs x ≤ 2 ^ 63 }
    requires right { unsigned_abs y ≤ 2 ^ 63 }
    requires divisor { y ≢ pos 0 }
    ensures { result ≡ int_div x y }
{
    x / y
}

fn remainder(x: i128, y: i128) -> i128
    requires left { unsigned_abs x ≤ 2 ^ 63 }
    requires right { unsigned_abs y ≤ 2 ^ 63 }
    requires divisor { y ≢ pos 0 }
    ensures { result ≡ int_rem x y }
{
    x % y
}

fn checked_quotient(t: VType, x: i128, y: i128) -> Result<Value, FaultKind>
    requires left { unsigned_abs x ≤ 2 ^ 63 }
    requires right { unsigned_abs y ≤ 2 ^ 63 }
    ensures { result ≡ unless_zero y (checked t (int_div x y)) }
{
    if y == 0 {
        return Err(FaultKind::DivideByZero);
    }
    t.checked(quotient(x, y))
}

fn checked_remainder(t: VType, x: i128, y: i128) -> Result<Value, FaultKind>
    requires left { unsigned_abs x ≤ 2 ^ 63 }
    requires right { unsigned_abs y ≤ 2 ^ 63 }
    ensures { result ≡ unless_zero y (checked t (int_rem x y)) }
{
    if y == 0 {
        return Err(FaultKind::DivideByZero);
    }
    t.checked(remainder(x, y))
}

/// What an operation gives on one value, computed exactly: the fault Overflow where the result is out of its
/// type's range. Where the value's type does not fit the operation, its number is taken in its place.
pub fn apply1(op: Op1, a: Value) -> Result<Value, FaultKind>
    ensures { result ≡ result1 op a }
{
    match op {
        Op1::Neg => a.type_of().checked(negative(a.number())),
        Op1::Not => Ok(Value::Flag(a.number() <= 0)),
        Op1::ToI32 => VType::I32.checked(a.number()),
        Op1::ToI64 => VType::I64.checked(a.number()),
    }
}

/// What an operation gives on two values, computed exactly: the fault DivideByZero where a divisor is 0, and the
/// fault Overflow where the result is out of the first value's type's range. Where the values' types do not fit
/// the operation, their numbers are taken in their place.
pub fn apply2(op: Op2, a: Value, b: Value) -> Result<Value, FaultKind>
    ensures { result ≡ result2 op a b }
{
    let t = a.type_of();
    let x = a.number();
    let y = b.number();
    match op {
        Op2::Add => t.checked(sum(x, y)),
        Op2::Sub => t.checked(difference(x, y)),
        Op2::Mul => t.checked(product(x, y)),
        Op2::Div => checked_quotient(t, x, y),
        Op2::Rem => checked_remainder(t, x, y),
        Op2::Eq => Ok(Value::Flag(x == y)),
        Op2::Ne => Ok(Value::Flag(x != y)),
        Op2::Lt => Ok(Value::Flag(x < y)),
        Op2::Le => Ok(Value::Flag(x <= y)),
        Op2::Gt => Ok(Value::Flag(x > y)),
        Op2::Ge => Ok(Value::Flag(x >= y)),
    }
}

//! Values and their types.

ghost use Rattle.std.specs.Prelude.{◌≡◌, IsTrue};
ghost use Rattle.gm_value.specs.Operations.{is_numeric};
ghost use Rattle.gm_value.specs.Numbers.{type_of, number_of, least_of, greatest_of, fits, checked, zero_of};

use crate::faults::FaultKind;

/// The type of a value.
#[derive(Clone, Copy, Debug, PartialEq, Eq)]
pub enum VType {
    /// A whole number of 32 bits with its sign.
    I32,
    /// A whole number of 64 bits with its sign.
    I64,
    /// A truth value.
    Flag,
    /// A node, or NIL.
    Node,
}

/// A value of one of the types.
#[derive(Clone, Copy, Debug, PartialEq, Eq)]
pub enum Value {
    /// A whole number of 32 bits with its sign.
    I32(i32),
    /// A whole number of 64 bits with its sign.
    I64(i64),
    /// A truth value.
    Flag(bool),
    /// The node of an index, from 0, or NIL, which is no node.
    At(Option<u32>),
}

impl VType {
    /// The value that a variable of the type has at first: 0, False or NIL.
    pub fn zero(self) -> Value
        ensures { result ≡ zero_of self }
    {
        match self {
            VType::I32 => Value::I32(0),
            VType::I64 => Value::I64(0),
            VType::Flag => Value::Flag(false),
            VType::Node => Value::At(None),
        }
    }

    /// Whether the type has arithmetic and order.
    pub fn is_numeric(self) -> bool
        ensures { result ≡ is_numeric self }
    {
        match self {
            VType::I32 | VType::I64 => true,
            VType::Flag | VType::Node => false,
        }
    }

    /// The least value of the type: of truth values False, of nodes NIL.
    pub fn least(self) -> Value
        ensures typed { type_of result ≡ self }
        ensures number { number_of result ≡ least_of self }
    {
        match self {
            VType::I32 => Value::I32(i32::MIN),
            VType::I64 => Value::I64(i64::MIN),
            VType::Flag => Value::Flag(false),
            VType::Node => Value::At(None),
        }
    }

    /// The greatest value of the type: of truth values True, of nodes the greatest index.
    pub fn greatest(self) -> Value
        ensures typed { type_of result ≡ self }
        ensures number { number_of result ≡ greatest_of self }
    {
        match self {
            VType::I32 => Value::I32(i32::MAX),
            VType::I64 => Value::I64(i64::MAX),
            VType::Flag => Value::Flag(true),
            VType::Node => Value::At(Some(u32::MAX)),
        }
    }

    /// The value of the type for which a number stands: False and True are 0 and 1, NIL is -1, and a node its
    /// index. A number out of the type's range is the fault Overflow.
    pub fn checked(self, number: i128) -> Result<Value, FaultKind>
        ensures { result ≡ checked self number }
    {
        match self {
            VType::I32 => match i32::try_from(number) {
                Ok(z) => Ok(Value::I32(z)),
                Err(_) => Err(FaultKind::Overflow),
            },
            VType::I64 => match i64::try_from(number) {
                Ok(z) => Ok(Value::I64(z)),
                Err(_) => Err(FaultKind::Overflow),
            },
            VType::Flag => match number {
                0 => Ok(Value::Flag(false)),
                1 => Ok(Value::Flag(true)),
                _ => Err(FaultKind::Overflow),
            },
            VType::Node => {
                if number == -1 {
                    return Ok(Value::At(None));
                }
                match u32::try_from(number) {
                    Ok(index) => Ok(Value::At(Some(index))),
                    Err(_) => Err(FaultKind::Overflow),
                }
            }
        }
    }
}

impl Value {
    /// The type of the value.
    pub fn type_of(self) -> VType
        ensures { result ≡ type_of self }
    {
        match self {
            Value::I32(_) => VType::I32,
            Value::I64(_) => VType::I64,
            Value::Flag(_) => VType::Flag,
            Value::At(_) => VType::Node,
        }
    }

    /// The whole number that stands for the value: False and True are 0 and 1, NIL is -1, and a node its index.
    pub fn number(self) -> i128
        ensures number { result ≡ number_of self }
        ensures in_range { IsTrue (fits (type_of self) (number_of self)) }
    {
        match self {
            Value::I32(z) => i128::from(z),
            Value::I64(z) => i128::from(z),
            Value::Flag(b) => i128::from(b),
            Value::At(None) => -1,
            Value::At(Some(index)) => i128::from(index),
        }
    }
}

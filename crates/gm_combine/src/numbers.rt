//! The types of values that messages carry.

ghost use Rattle.std.specs.Prelude.{◌≡◌};
ghost use Rattle.gm_value.specs.declared.values.Value.{Value};
ghost use Rattle.gm_value.specs.declared.values.Value.TheVariants as values;
ghost use Rattle.gm_value.specs.Numbers.{number_of};

use gm_value::Value;

/// A type of values, as a row holds them.
pub(crate) trait Number: Copy + Drop {
    // the value that is held
    ghost value: { Self → Value };

    /// The value.
    fn value(self) -> Value
        ensures { result ≡ value self };

    /// The whole number that stands for the value: False and True are 0 and 1, NIL is -1, and a node its index.
    fn number(self) -> i64
        ensures { result ≡ number_of (value self) };
}

impl Number for i32 {
    ghost value = { λ cell. values.I32 cell };

    #[inline(always)]
    fn value(self) -> Value {
        Value::I32(self)
    }

    #[inline(always)]
    fn number(self) -> i64 {
        i64::from(self)
    }
}

impl Number for i64 {
    ghost value = { λ cell. values.I64 cell };

    #[inline(always)]
    fn value(self) -> Value {
        Value::I64(self)
    }

    #[inline(always)]
    fn number(self) -> i64 {
        self
    }
}

impl Number for bool {
    ghost value = { λ cell. values.Flag cell };

    #[inline(always)]
    fn value(self) -> Value {
        Value::Flag(self)
    }

    #[inline(always)]
    fn number(self) -> i64 {
        i64::from(self)
    }
}

impl Number for Option<u32> {
    ghost value = { λ cell. values.At cell };

    #[inline(always)]
    fn value(self) -> Value {
        Value::At(self)
    }

    #[inline(always)]
    fn number(self) -> i64 {
        match self {
            Some(node) => i64::from(node),
            None => -1,
        }
    }
}

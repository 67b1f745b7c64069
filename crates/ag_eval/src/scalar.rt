//! Numbers and errors, which own no memory.

ghost use Rattle.std.specs.Prelude.{◌≡◌, IfSome};
ghost use Rattle.ag_value.specs.Well.{IsWell};
ghost use Rattle.ag_eval.specs.Operands.{scalar_value};

use ag_value::{ErrorCode, Value};

/// A number or an error.
#[derive(Clone, Copy)]
pub enum Scalar {
    /// A number.
    Number(i64),
    /// An error.
    Fault(ErrorCode),
}

impl Scalar {
    /// Returns a value as a scalar, or `None` if it is a text, a list or a table.
    #[inline(always)]
    pub fn from_value(value: &Value) -> Option<Scalar>
        ensures { IfSome result (λ s. scalar_value s ≡ value.now) }
    {
        match value {
            Value::Num(number) => Some(Scalar::Number(*number)),
            Value::Fault(code) => Some(Scalar::Fault(*code)),
            _ => None,
        }
    }

    /// Returns the scalar as a value.
    #[inline(always)]
    pub fn into_value(self) -> Value
        ensures value { result ≡ scalar_value self }
        ensures well { IsWell result }
    {
        match self {
            Scalar::Number(number) => Value::Num(number),
            Scalar::Fault(code) => Value::Fault(code),
        }
    }
}

//! The environments of an evaluation, which lend the values of its occurrences.

ghost use Rattle.std.specs.Prelude.{◌≡◌, ◌<◌, ℕ, IfSome};
ghost use Rattle.ag_eval.specs.Operands.{loan_value, scalar_value};

use crate::scalar::Scalar;
use ag_carried::Carried;
use ag_value::Value;

/// The values of an expression's occurrences.
pub trait Env {
    ghost use Rattle.ag_value.specs.declared.value.Value.{Value as AttributeValue};

    /// The number of occurrences whose values are lent; they are numbered from 0.
    ghost count: { Self → ℕ };

    /// The value of the occurrence with this number.
    ghost lent: { Self → ℕ → AttributeValue };

    /// Lends the value of the occurrence with this number. Takes no memory.
    fn lend(&self, k: usize) -> &Value
        requires { k < count self.now }
        ensures { result.now ≡ lent self.now k };
}

/// The values of an expression's occurrences, as carried ones.
pub trait CarriedEnvironment {
    ghost use Rattle.ag_value.specs.declared.value.Value.{Value as AttributeValue};

    /// The number of occurrences whose values are lent; they are numbered from 0.
    ghost count: { Self → ℕ };

    /// The value of the occurrence with this number.
    ghost lent: { Self → ℕ → AttributeValue };

    /// Lends the value of the occurrence with this number. Takes no memory.
    fn lend(&self, k: usize) -> &Carried
        requires { k < count self.now }
        ensures { result.now ≡ lent self.now k };
}

/// A value that an environment lends: a `Value` or a carried value.
#[derive(Drop)]
pub enum Loan<'e> {
    Value(&'e Value),
    Carried(&'e Carried),
}

impl<'e> Loan<'e> {
    /// Returns the value as a scalar, or `None` if it is a text, a list or a table.
    #[inline(always)]
    pub fn scalar(&self) -> Option<Scalar>
        ensures { IfSome result (λ s. scalar_value s ≡ loan_value self.now) }
    {
        match self {
            Loan::Value(value) => Scalar::from_value(*value),
            Loan::Carried(carried) => scalar_of(*carried),
        }
    }
}

/// Returns a carried value as a scalar, if it is one.
#[inline(always)]
fn scalar_of(carried: &Carried) -> Option<Scalar>
    ensures { IfSome result (λ s. scalar_value s ≡ carried.now) }
{
    match carried.as_number() {
        Some(number) => Some(Scalar::Number(number)),
        None => Some(Scalar::Fault(carried.as_fault()?)),
    }
}

/// An environment that lends values or carried values: `ByValue` or `ByCarried`.
pub trait Lender {
    ghost use Rattle.ag_value.specs.declared.value.Value.{Value as AttributeValue};

    /// The number of occurrences whose values are lent; they are numbered from 0.
    ghost count: { Self → ℕ };

    /// The value of the occurrence with this number.
    ghost lent: { Self → ℕ → AttributeValue };

    /// Lends the value of the occurrence with this number. Takes no memory.
    fn loan(&self, k: usize) -> Loan<'_>
        requires { k < count self.now }
        ensures { loan_value result ≡ lent self.now k };
}

/// An environment that lends values.
#[derive(Drop)]
pub struct ByValue<'e, V: Env> {
    pub env: &'e V,
}

impl<'e, V: Env> Lender for ByValue<'e, V> {
    ghost count = { λ lender. V.count lender.env.now };

    ghost lent = { λ lender. V.lent lender.env.now };

    #[inline(always)]
    fn loan(&self, k: usize) -> Loan<'_> {
        Loan::Value(self.env.lend(k))
    }
}

/// An environment that lends carried values.
#[derive(Drop)]
pub struct ByCarried<'e, C: CarriedEnvironment> {
    pub env: &'e C,
}

impl<'e, C: CarriedEnvironment> Lender for ByCarried<'e, C> {
    ghost count = { λ lender. C.count lender.env.now };

    ghost lent = { λ lender. C.lent lender.env.now };

    #[inline(always)]
    fn loan(&self, k: usize) -> Loan<'_> {
        Loan::Carried(self.env.lend(k))
    }
}

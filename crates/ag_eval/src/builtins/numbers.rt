//! Operations on numbers.

ghost use Rattle.std.specs.Prelude.{◌≡◌, ◌+ℤ◌, ◌-ℤ◌, ◌*ℤ◌, IfOk};
ghost use Rattle.ag_value.specs.Well.{IsWell};
ghost use Rattle.ag_value.specs.operations.Numbers.{decimal_of, number_of, number_value, of_numbers};
ghost use Rattle.ag_value.specs.operations.Numbers.{quotient, remainder, spelled_number};
ghost use Rattle.ag_eval.specs.Operands.{scalar_value};

use crate::scalar::Scalar;
use ag_value::{ErrorCode, NoMemory, Text, Value};
use itoa::Buffer;
use std::alloc::Global;

/// Computes `a + b` of two numbers.
#[inline(always)]
pub fn sum_of(m: i64, n: i64) -> Scalar
    ensures { scalar_value result ≡ number_value (m +ℤ n) }
{
    match m.checked_add(n) {
        Some(number) => Scalar::Number(number),
        None => Scalar::Fault(ErrorCode::Overflow),
    }
}

/// Computes `a - b` of two numbers.
#[inline(always)]
pub fn difference_of(m: i64, n: i64) -> Scalar
    ensures { scalar_value result ≡ number_value (m -ℤ n) }
{
    match m.checked_sub(n) {
        Some(number) => Scalar::Number(number),
        None => Scalar::Fault(ErrorCode::Overflow),
    }
}

/// Computes `a * b` of two numbers.
#[inline(always)]
pub fn product_of(m: i64, n: i64) -> Scalar
    ensures { scalar_value result ≡ number_value (m *ℤ n) }
{
    match m.checked_mul(n) {
        Some(number) => Scalar::Number(number),
        None => Scalar::Fault(ErrorCode::Overflow),
    }
}

/// Computes `a div b` of two numbers.
#[inline(always)]
pub fn quotient_of(dividend: i64, divisor: i64) -> Scalar
    ensures { scalar_value result ≡ quotient dividend divisor }
{
    if divisor == 0 {
        return Scalar::Fault(ErrorCode::Divide);
    }
    match dividend.checked_div(divisor) {
        Some(number) => Scalar::Number(number),
        None => Scalar::Fault(ErrorCode::Overflow),
    }
}

/// Computes `a mod b` of two numbers.
#[inline(always)]
pub fn remainder_of(dividend: i64, divisor: i64) -> Scalar
    ensures { scalar_value result ≡ remainder dividend divisor }
{
    if divisor == 0 {
        return Scalar::Fault(ErrorCode::Divide);
    }
    // `%` would overflow for the least number and -1, whose remainder is 0
    Scalar::Number(dividend.wrapping_rem(divisor))
}

/// Computes `a + b`.
#[inline(always)]
pub fn sum(left: &Value, right: &Value) -> Value
    ensures value { result ≡ of_numbers (λ m n. number_value (m +ℤ n)) left.now right.now }
    ensures well { IsWell result }
{
    let (Value::Num(m), Value::Num(n)) = (left, right) else {
        return Value::Fault(ErrorCode::Kind);
    };
    sum_of(*m, *n).into_value()
}

/// Computes `a - b`.
#[inline(always)]
pub fn difference(left: &Value, right: &Value) -> Value
    ensures value { result ≡ of_numbers (λ m n. number_value (m -ℤ n)) left.now right.now }
    ensures well { IsWell result }
{
    let (Value::Num(m), Value::Num(n)) = (left, right) else {
        return Value::Fault(ErrorCode::Kind);
    };
    difference_of(*m, *n).into_value()
}

/// Computes `a * b`.
#[inline(always)]
pub fn product(left: &Value, right: &Value) -> Value
    ensures value { result ≡ of_numbers (λ m n. number_value (m *ℤ n)) left.now right.now }
    ensures well { IsWell result }
{
    let (Value::Num(m), Value::Num(n)) = (left, right) else {
        return Value::Fault(ErrorCode::Kind);
    };
    product_of(*m, *n).into_value()
}

/// Computes `a div b`.
pub fn quotient(left: &Value, right: &Value) -> Value
    ensures value { result ≡ of_numbers quotient left.now right.now }
    ensures well { IsWell result }
{
    let (Value::Num(m), Value::Num(n)) = (left, right) else {
        return Value::Fault(ErrorCode::Kind);
    };
    quotient_of(*m, *n).into_value()
}

/// Computes `a mod b`.
pub fn remainder(left: &Value, right: &Value) -> Value
    ensures value { result ≡ of_numbers remainder left.now right.now }
    ensures well { IsWell result }
{
    let (Value::Num(m), Value::Num(n)) = (left, right) else {
        return Value::Fault(ErrorCode::Kind);
    };
    remainder_of(*m, *n).into_value()
}

/// Computes `text(n)`. Takes memory for a text of more than 16 bytes.
pub fn decimal(alloc: Global, value: &Value) -> Result<Value, NoMemory>
    ensures value { IfOk result (λ v. v ≡ decimal_of value.now) }
    ensures well { IfOk result (λ v. IsWell v) }
{
    let Value::Num(number) = value else {
        return Ok(Value::Fault(ErrorCode::Kind));
    };
    // The copy shows the prover that the number is in the range of i64, and the contract of
    // `as_str` that the text is UTF-8.
    let number = *number;
    let mut buffer = Buffer::new();
    let text = Text::from_str(alloc, buffer.format(number))?;
    let _utf8 = text.as_str();
    Ok(Value::Text(text))
}

/// Computes `number(t)`.
pub fn number(value: &Value) -> Value
    ensures value { result ≡ number_of value.now }
    ensures well { IsWell result }
{
    let Value::Text(text) = value else {
        return Value::Fault(ErrorCode::Kind);
    };
    match spelled_number(text.as_str()) {
        Some(number) => Value::Num(number),
        None => Value::Fault(ErrorCode::Number),
    }
}

/// Returns the number that a text denotes in decimal, if it denotes one in the range of i64.
#[tactic(auto, using(crate::proofs::Spelled::parses))]
fn spelled_number(text: &str) -> Option<i64>
    ensures { result ≡ spelled_number text.now }
{
    // the standard library also accepts a plus sign
    if text.starts_with('+') {
        return None;
    }
    text.parse::<i64>().ok()
}

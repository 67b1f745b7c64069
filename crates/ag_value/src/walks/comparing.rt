//! The comparison of two values.
ghost use Rattle.std.specs.Prelude.{◌≡◌, ◌↔◌, IsTrue};

use crate::text::Text;
use crate::value::Value;

/// Returns whether two values are equal: of one kind, and with the same contents. The order of
/// items and of pairs counts. Takes no memory.
#[cycle(same)]
pub fn same(a: &Value, b: &Value) -> bool
    ensures { IsTrue result ↔ (a.now ≡ b.now) }
{
    match (a, b) {
        (Value::Num(m), Value::Num(n)) => *m == *n,
        (Value::Text(s), Value::Text(t)) => s.as_str() == t.as_str(),
        (Value::List(xs), Value::List(ys)) => same_items(xs.as_slice(), ys.as_slice()),
        (Value::Table(xs), Value::Table(ys)) => same_pairs(xs.as_slice(), ys.as_slice()),
        (Value::Fault(c), Value::Fault(d)) => *c == *d,
        _ => false,
    }
}

/// Returns whether two lists have the same items in the same order.
#[cycle(same)]
fn same_items(xs: &[Value], ys: &[Value]) -> bool
    ensures { IsTrue result ↔ (xs.now ≡ ys.now) }
{
    if xs.len() != ys.len() {
        return false;
    }
    for i in 0..xs.len() {
        if !same(&xs[i], &ys[i]) {
            return false;
        }
    }
    true
}

/// Returns whether two tables have the same pairs in the same order.
#[cycle(same)]
fn same_pairs(xs: &[(Text, Value)], ys: &[(Text, Value)]) -> bool
    ensures { IsTrue result ↔ (xs.now ≡ ys.now) }
{
    if xs.len() != ys.len() {
        return false;
    }
    for i in 0..xs.len() {
        if xs[i].0.as_str() != ys[i].0.as_str() {
            return false;
        }
        if !same(&xs[i].1, &ys[i].1) {
            return false;
        }
    }
    true
}

//! Deep copies of values.
ghost use Rattle.std.specs.Prelude.{◌≡◌, IfOk};

use crate::fault::NoMemory;
use crate::items::Items;
use crate::text::Text;
use crate::value::Value;
use std::alloc::Global;

/// Copies a value with all values in it. Fails with NoMemory.
#[cycle(copy)]
pub fn copy(alloc: Global, value: &Value) -> Result<Value, NoMemory>
    ensures { IfOk result (λ copied. copied ≡ value.now) }
{
    match value {
        Value::Num(n) => Ok(Value::Num(*n)),
        Value::Text(text) => Ok(Value::Text(Text::from_str(alloc, text.as_str())?)),
        Value::List(items) => Ok(Value::List(copy_items(alloc, items.as_slice())?)),
        Value::Table(pairs) => Ok(Value::Table(copy_pairs(alloc, pairs.as_slice())?)),
        Value::Fault(code) => Ok(Value::Fault(*code)),
    }
}

/// Copies the items of a list. Fails with NoMemory.
#[cycle(copy)]
fn copy_items(alloc: Global, items: &[Value]) -> Result<Items<Value>, NoMemory>
    ensures { IfOk result (λ copied. copied ≡ items.now) }
{
    let mut copies = Vec::with_capacity(alloc, items.len())?;
    for item in items {
        copies.push(copy(alloc, item)?)?;
    }
    Ok(Items::from_vec(copies))
}

/// Copies the pairs of a table. Fails with NoMemory.
#[cycle(copy)]
fn copy_pairs(alloc: Global, pairs: &[(Text, Value)]) -> Result<Items<(Text, Value)>, NoMemory>
    ensures { IfOk result (λ copied. copied ≡ pairs.now) }
{
    let mut copies = Vec::with_capacity(alloc, pairs.len())?;
    for pair in pairs {
        let key = Text::from_str(alloc, pair.0.as_str())?;
        let value = copy(alloc, &pair.1)?;
        copies.push((key, value))?;
    }
    Ok(Items::from_vec(copies))
}

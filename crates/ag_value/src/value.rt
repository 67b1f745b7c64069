//! The values of attributes.
use crate::items::Items;
use crate::text::Text;

/// The reasons why the value of an expression is an error. In spellings the errors have the numbers
/// 1 to 8 in this order.
#[derive(Clone, Copy, Debug, PartialEq, Eq)]
pub enum ErrorCode {
    /// A number left the range of i64.
    Overflow,
    /// A division by zero.
    Divide,
    /// An argument of a kind that the operation does not take.
    Kind,
    /// A list has no item at this index.
    Index,
    /// A table has no such key.
    Key,
    /// A text is not a number in decimal, or its number is out of range.
    Number,
    /// A value whose spelling has more than 1,048,576 bytes.
    Big,
    /// A value whose depth exceeds 64.
    Deep,
}

/// The value of an attribute.
#[derive(Debug, Drop)]
pub enum Value {
    /// A signed number of 64 bits.
    Num(i64),
    /// A text.
    Text(Text),
    /// Values in order.
    List(Items<Value>),
    /// Pairs of a key and its value. If the value is well (see `is_well`), the keys are in strictly
    /// ascending order by their bytes.
    Table(Items<(Text, Value)>),
    /// An error.
    Fault(ErrorCode),
}

//! The faults of parsing a text as a grammar.

use ag_expr::ExprFault;
use thiserror::Error;

/// Why parsing a text as a grammar fails. Offsets are in bytes from the beginning of the text.
#[derive(Clone, Copy, Debug, PartialEq, Eq, Error)]
pub enum TextFault {
    /// G1: the text is not UTF-8; the offset of the first invalid byte.
    BadUtf8(usize),
    /// G2: at this offset is a token with which no grammar continues, a token whose number or place
    /// is above its limit, a character that begins no token, or the end of the text before the end
    /// of the grammar. The first field is the number of the line, from 1, which is 1 more than the
    /// number of LFs before the offset. The second field is the offset.
    Unexpected(usize, usize),
    /// G3: the expression of a rule has this fault, which is never `NoMemory`. The offset in the
    /// fault is also from the beginning of the grammar's text.
    Expr(ExprFault),
    /// G4: the text has more than 1,048,576 bytes.
    TooLong,
    /// An allocation failed.
    NoMemory,
}

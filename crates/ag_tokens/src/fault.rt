//! The reasons why no token can be read.

use thiserror::Error;

/// Why no token can be read at the beginning of a text.
#[derive(Clone, Copy, Debug, PartialEq, Eq, Error)]
pub enum TokenFault {
    /// No token begins at the first character, or the text is empty.
    #[error("token: no token begins here")]
    Nothing,
    /// The first token is a number literal above 9223372036854775807, or an occurrence with a place
    /// above 65535.
    #[error("number: the number is too large")]
    TooLarge,
}

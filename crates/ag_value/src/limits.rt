//! The limits of values (this project's). Contracts and code use these constants.

/// The greatest depth of a well value (see `is_well`). The depth of a number is 0, and that of an
/// empty list is 1.
pub const MAX_VALUE_DEPTH: u32 = 64;

/// The greatest weight of a well value. The weight is the length of the spelling in bytes.
pub const MAX_WEIGHT: u64 = 1_048_576;

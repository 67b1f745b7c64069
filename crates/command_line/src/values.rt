//! The values of arguments, as clap has parsed them.

use crate::input::InputPath;
use clap::ArgMatches;
use std::alloc::{AllocError, Global};

/// Returns the value of an argument, or the empty text if it is missing. Clap accepts no command
/// line in which a required argument is missing, so then the empty text is not used.
pub fn value_of<'a>(matches: &ArgMatches<'a>, name: &str) -> &'a str {
    matches.get_str(name).unwrap_or("")
}

/// Returns the input that an argument names.
pub fn input_of<'a>(matches: &ArgMatches<'a>, name: &str) -> InputPath<'a> {
    InputPath::of(value_of(matches, name))
}

/// Returns all values of an argument, in their order: none if it is missing. Fails if memory is
/// refused.
pub fn values_of<'a>(
    alloc: Global,
    matches: &ArgMatches<'a>,
    name: &str,
) -> Result<Vec<&'a str>, AllocError> {
    Vec::from_slice(alloc, matches.get_strs(name).unwrap_or(&[]))
}

/// Returns the number that is the value of an option, or `other` if the option is not there.
/// Returns `None` if the value is not a number below 2^32.
pub fn number_of(matches: &ArgMatches<'_>, name: &str, other: u32) -> Option<u32> {
    match matches.get_str(name) {
        Some(word) => word.parse::<u32>().ok(),
        None => Some(other),
    }
}

//! Parsing the words of rows, and printing bytes.

use ag_value::OutOfMemory;
use hex::{FromHexError, decode, encode};
use std::alloc::{AllocError, Global};
use std::fmt::Debug;

/// Why a line could not be run.
#[derive(Clone, Copy, Debug)]
pub enum Mistake {
    /// A word of the row is unknown, missing, or not the number or the bytes that it has to be.
    Misspelt,
    /// A text is not what the row's verb needs (for example, it is not an accepted grammar), or a
    /// call did not end as the row assumes.
    Unfit,
    /// A request for memory was refused.
    NoMemory,
}

impl<M: OutOfMemory> From<M> for Mistake {
    fn from(_error: M) -> Mistake {
        Mistake::NoMemory
    }
}

/// Returns a value as `{:?}` prints it.
pub fn printed<T: Debug>(alloc: Global, value: &T) -> Result<String, Mistake> {
    Ok(format!(in alloc; "{value:?}")?)
}

/// Returns the first word of a text, and the text after the space that ends it. If there is
/// no space, the whole text is the word, and the second text is empty.
pub fn first_word(text: &str) -> (&str, &str) {
    text.split_once(' ').unwrap_or((text, ""))
}

/// Returns the texts before and after the first separator. Fails with `Misspelt` if there is none.
pub fn halves<'a>(text: &'a str, separator: &str) -> Result<(&'a str, &'a str), Mistake> {
    text.split_once(separator).ok_or(Mistake::Misspelt)
}

/// Returns the number that a word spells. Fails with `Misspelt` if it isn't a `u32`.
pub fn number(word: &str) -> Result<u32, Mistake> {
    word.parse::<u32>().map_err(|_| Mistake::Misspelt)
}

/// Returns the number that a word spells. Fails with `Misspelt` if it isn't a `u16`.
pub fn short_number(word: &str) -> Result<u16, Mistake> {
    word.parse::<u16>().map_err(|_| Mistake::Misspelt)
}

/// Returns the parts of a text between separators, or no part for the text `-`. An empty text has
/// one empty part. The separator must not be empty. (So a text of n bytes has at most n separators,
/// and the loop finds them all.) Fails if memory is refused.
pub fn parts<'a>(
    alloc: Global,
    text: &'a str,
    separator: &str,
) -> Result<Vec<&'a str>, AllocError> {
    let mut found = Vec::new(alloc);
    if text == "-" {
        return Ok(found);
    }
    let mut rest = text;
    for _ in 0..text.len() {
        let Some((part, following)) = rest.split_once(separator) else {
            break;
        };
        found.push(part)?;
        rest = following;
    }
    found.push(rest)?;
    Ok(found)
}

/// Returns the numbers of a text, separated by spaces, or no number for the text `-`. Fails with
/// `Misspelt` if one isn't a `u16`, and with `NoMemory` if memory is refused.
pub fn short_numbers(alloc: Global, text: &str) -> Result<Vec<u16>, Mistake> {
    let mut numbers = Vec::new(alloc);
    for word in parts(alloc, text, " ")?.as_slice() {
        numbers.push(short_number(word)?)?;
    }
    Ok(numbers)
}

/// Returns the bytes that the words of a text spell, with two hexadecimal digits for each byte. The
/// word `00*1000` spells 1,000 zero bytes. Fails with `Misspelt` if a word isn't of this form, and
/// with `NoMemory` if memory is refused.
pub fn bytes_of(alloc: Global, text: &str) -> Result<Vec<u8>, Mistake> {
    let mut bytes = Vec::new(alloc);
    for word in text.split_whitespace() {
        let (piece, count) = word.split_once('*').unwrap_or((word, "1"));
        let piece = bytes_of_word(alloc, piece)?;
        let times = piece.as_slice().repeat(alloc, number(count)? as usize)?;
        bytes.extend_from_slice(times.as_slice())?;
    }
    Ok(bytes)
}

/// Returns the bytes that a word without `*` spells, with two hexadecimal digits for each byte.
/// Fails as `bytes_of` does.
fn bytes_of_word(alloc: Global, word: &str) -> Result<Vec<u8>, Mistake> {
    match decode(alloc, word.as_bytes()) {
        Ok(bytes) => Ok(bytes),
        Err(FromHexError::OutOfMemory) => Err(Mistake::NoMemory),
        Err(_) => Err(Mistake::Misspelt),
    }
}

/// The greatest number of bytes that are printed as digits. Of more bytes only their number is
/// printed.
const MAX_PRINTED: usize = 128;

/// Returns two hexadecimal digits for each byte, or only the number of bytes if there are more than
/// `MAX_PRINTED`.
pub fn shown_bytes(alloc: Global, bytes: &[u8]) -> Result<String, AllocError> {
    if bytes.len() > MAX_PRINTED {
        return format!(in alloc; "{} bytes", bytes.len());
    }
    encode(alloc, bytes)
}

/// Returns the number of nodes of a tree and the bytes of its file, as in
/// `1 nodes, 41475432000000000100000003`. Prints more than `MAX_PRINTED` bytes as their number.
pub fn shown_tree_file(alloc: Global, count: u32, file: &[u8]) -> Result<String, Mistake> {
    let file = shown_bytes(alloc, file)?;
    Ok(format!(in alloc; "{count} nodes, {file}")?)
}

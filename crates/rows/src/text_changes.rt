//! The current text, and the lines that change it. `tests/README.md` lists their verbs.

use crate::words::{Mistake, bytes_of, first_word, number};
use std::alloc::{AllocError, Global};

/// Runs a line if its verb changes the text; `rest` is the text after the verb. Returns whether the
/// verb changes the text. Fails with `Misspelt` if a word of `rest` is wrong, and with `NoMemory`
/// if memory is refused.
pub fn change_text(
    alloc: Global,
    text: &mut String,
    verb: &str,
    rest: &str,
) -> Result<bool, Mistake> {
    match verb {
        "text" => {
            text.clear();
            text.push_str(rest)?;
        }
        "more" => {
            text.push('\n')?;
            text.push_str(rest)?;
        }
        "and" => text.push_str(rest)?,
        "chars" => write_chars(text, bytes_of(alloc, rest)?.as_slice())?,
        "times" => write_times(alloc, text, rest)?,
        "twice" => write_twice(alloc, text, rest)?,
        "front" => write_before(alloc, text, rest)?,
        _ => return Ok(false),
    }
    Ok(true)
}

/// Appends the characters with these code points, from 0 to 255.
fn write_chars(text: &mut String, numbers: &[u8]) -> Result<(), AllocError> {
    for number in numbers {
        text.push(char::from(*number))?;
    }
    Ok(())
}

/// Appends the text to itself, and then appends `rest`.
fn write_twice(alloc: Global, text: &mut String, rest: &str) -> Result<(), AllocError> {
    let so_far = String::from_str(alloc, text.as_str())?;
    text.push_str(so_far.as_str())?;
    text.push_str(rest)
}

/// Inserts a text before the current text.
fn write_before(alloc: Global, text: &mut String, rest: &str) -> Result<(), AllocError> {
    let so_far = String::from_str(alloc, text.as_str())?;
    text.clear();
    text.push_str(rest)?;
    text.push_str(so_far.as_str())
}

/// Appends copies of a piece: the first word of `rest` spells their number, and the text after it
/// is the piece. In each copy, `#` becomes the copy's number from 0, `@` its number from 1, and `~`
/// a space.
fn write_times(alloc: Global, text: &mut String, rest: &str) -> Result<(), Mistake> {
    let (count, piece) = first_word(rest);
    let count = number(count)?;
    if !piece.contains('#') && !piece.contains('@') {
        return Ok(write_alike(alloc, text, piece, count as usize)?);
    }
    for turn in 0..count {
        write_turn(text, piece, turn)?;
    }
    Ok(())
}

/// Appends `count` copies of a text without `#` and `@`. In each copy, `~` becomes a space. The
/// copies are alike, so one is made and then repeated.
fn write_alike(
    alloc: Global,
    text: &mut String,
    piece: &str,
    count: usize,
) -> Result<(), AllocError> {
    let mut one = String::new(alloc);
    write_turn(&mut one, piece, 0)?;
    text.push_str(one.as_str().repeat(alloc, count)?.as_str())
}

/// Appends copy number `turn` (from 0) of a piece, with `#`, `@` and `~` replaced as in
/// `write_times`.
fn write_turn(text: &mut String, piece: &str, turn: u32) -> Result<(), AllocError> {
    for letter in piece.chars() {
        match letter {
            '#' => write!(text, "{turn}")?,
            '@' => write!(text, "{}", turn.wrapping_add(1))?,
            '~' => text.push(' ')?,
            _ => text.push(letter)?,
        }
    }
    Ok(())
}

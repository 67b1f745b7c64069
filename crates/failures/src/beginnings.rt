//! Texts, listings, values and translations for a writer that accepts a limited number of bytes: if
//! there are more, only a prefix is written.

use crate::endings::Ending;
use crate::fractions::{FRACTION_SENTENCE, FRACTIONS, translator};
use crate::narrow::{NarrowWriter, with_room};
use aggen::{Translator, print_code, print_counts, print_plan, show_value};
use agoutput::{TextOutFault, write_text};
use rows::words::{Mistake, first_word, number};
use std::alloc::Global;
use treefile::MemDevice;

/// Calls the function that the verb `what` names, with the writer `out`. The function writes a
/// text, a grammar's counts, a plan, a plan's code, or the value 14. For any other verb it writes a
/// translation. Returns how the call ends.
fn ending_of_writes(alloc: Global, what: &str, out: &mut NarrowWriter) -> Result<Ending, Mistake> {
    let fractions = FRACTIONS.as_bytes();
    match what {
        "text-into" => Ok(text_ending(out)),
        "counts-into" => Ok(Ending::of(print_counts(alloc, fractions, out))),
        "plan-into" => Ok(Ending::of(print_plan(alloc, fractions, out))),
        "code-into" => Ok(Ending::of(print_code(alloc, fractions, out))),
        "show-into" => Ok(value_ending(alloc, out)),
        _ => translation_ending(alloc, out),
    }
}

/// Writes the text `abc` and returns how the call ends.
fn text_ending(out: &mut NarrowWriter) -> Ending {
    match write_text(out, "abc") {
        Ok(()) => Ending::Done,
        Err(TextOutFault::Write) => Ending::Write,
    }
}

/// Shows the value 14 and returns how the call ends.
fn value_ending(alloc: Global, out: &mut NarrowWriter) -> Ending {
    let mut device = MemDevice::new(alloc);
    Ending::of(show_value(alloc, "14", &mut device, out))
}

/// Builds the translator of binary fractions, translates 1101.01 and returns how the call ends.
fn translation_ending(alloc: Global, out: &mut NarrowWriter) -> Result<Ending, Mistake> {
    let translator = translator(alloc, FRACTIONS)?;
    Ok(ending_of_translation(alloc, &translator, out))
}

/// Translates the sentence and returns how the call ends.
fn ending_of_translation(alloc: Global, translator: &Translator, out: &mut NarrowWriter) -> Ending {
    let mut a = MemDevice::new(alloc);
    let mut b = MemDevice::new(alloc);
    Ending::of(translator.translate(FRACTION_SENTENCE, &mut a, &mut b, out))
}

/// Calls the function that the verb `what` names with a writer that accepts a number of bytes, one
/// in each call. After them the writer accepts no byte, or fails if the row has the word `fails`.
/// Returns how the call ends, and the bytes that were written. Fails with `Misspelt` if the row
/// doesn't begin with a number.
pub fn beginning_answer(alloc: Global, what: &str, spelled: &str) -> Result<String, Mistake> {
    let (room, rest) = first_word(spelled);
    let mut out = with_room(alloc, number(room)? as usize, rest == "fails")?;
    let ending = ending_of_writes(alloc, what, &mut out)?;
    Ok(ending.answer(alloc, out.taken.as_slice())?)
}

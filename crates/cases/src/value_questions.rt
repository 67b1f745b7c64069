//! The verbs of questions about expressions, values and contents of devices.

use crate::carried::carried_answer;
use crate::contents::{back_answer, last_answer, split_answer, turn_answer, write_answer};
use crate::expressions::{
    alike_answer, count_answer, expected_answer, grow_answer, meter_answer, occurrences_answer,
    tree_answer, until_answer, value_answer,
};
use crate::values::{decode_answer, property_answer, same_answer, spell_answer};
use ag_value::Value;
use rows::current_texts::CurrentTexts;
use rows::words::{Mistake, bytes_of, first_word, short_number};
use std::alloc::Global;

/// Answers questions about expressions (each occurrence has the value `given`), about that value,
/// and about contents. Fails with `Misspelt` if no question has this verb.
pub fn answer(
    alloc: Global,
    texts: &CurrentTexts,
    given: &Value,
    verb: &str,
    rest: &str,
) -> Result<String, Mistake> {
    let text = texts.text_or(rest);
    match verb {
        "value" => value_answer(alloc, text, given),
        "grow" => grow_answer(alloc, rest, given),
        "meter" => meter_answer(alloc, text, given),
        "tree" => tree_answer(alloc, text),
        "alike" => alike_answer(alloc, text),
        "occurrences" => occurrences_answer(alloc, text),
        "count" => count_answer(alloc, text),
        "until" => until_answer(alloc, texts, rest),
        "expected" => expected_answer(alloc, texts, rest),
        _ => answer_of_values(alloc, texts, given, verb, rest),
    }
}

/// Answers questions about values and their encodings. Calls `answer_of_contents` for each other
/// verb.
fn answer_of_values(
    alloc: Global,
    texts: &CurrentTexts,
    given: &Value,
    verb: &str,
    rest: &str,
) -> Result<String, Mistake> {
    match verb {
        "spell" => spell_answer(alloc, given),
        "weight" | "depth" | "well" | "copy" => property_answer(alloc, verb, given),
        "same" => same_answer(alloc, texts.text_or(rest), given),
        "carried" => carried_answer(alloc, rest, given),
        "decode" => decode_answer(alloc, bytes_of(alloc, texts.text_or(rest))?.as_slice()),
        _ => answer_of_contents(alloc, texts, verb, rest),
    }
}

/// Answers questions about contents of devices. Fails with `Misspelt` if no question has this verb.
fn answer_of_contents(
    alloc: Global,
    texts: &CurrentTexts,
    verb: &str,
    rest: &str,
) -> Result<String, Mistake> {
    match verb {
        "write" => write_answer(alloc, rest),
        "last" => last_answer(alloc, bytes_of(alloc, texts.text_or(rest))?),
        "split" => split_answer(alloc, bytes_of(alloc, rest)?.as_slice()),
        "back" => back_answer(alloc, bytes_of(alloc, texts.text_or(rest))?),
        "turn" => {
            let (pass, rest) = first_word(rest);
            let bytes = bytes_of(alloc, texts.text_or(rest))?;
            turn_answer(alloc, short_number(pass)?, bytes)
        }
        _ => Err(Mistake::Misspelt),
    }
}

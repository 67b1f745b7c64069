//! The verbs of questions about translators, faults and files.

use crate::blocks::{
    blocks_of_passes_answer, blocks_of_translate_answer, bodies_of_translate_answer,
};
use crate::faults::{message_answer, status_answer};
use crate::files::{file_answer, source_answer};
use crate::reports::{evaluate_answer, job_answer, translate_answer};
use crate::translators::{grammar_of_answer, parse_tree_answer};
use rows::current_texts::CurrentTexts;
use rows::sheet::Questions;
use rows::words::Mistake;
use std::alloc::Global;

/// Answers questions about the translator of the current grammar, and about jobs, files, faults and
/// blocks, which don't use that grammar.
#[derive(Drop)]
pub struct Translations {}

impl Questions for Translations {
    fn answer(
        &self,
        alloc: Global,
        texts: &CurrentTexts,
        verb: &str,
        rest: &str,
    ) -> Result<String, Mistake> {
        let (grammar, text) = (texts.grammar.as_str(), texts.text_or(rest));
        match verb {
            "grammar-of" => grammar_of_answer(alloc, grammar),
            "parse-tree" => parse_tree_answer(alloc, grammar, text),
            "translate" => translate_answer(alloc, grammar, text),
            "evaluate" => evaluate_answer(alloc, grammar, text),
            "job" => job_answer(alloc, text),
            "blocks-of-translate" => blocks_of_translate_answer(alloc),
            "blocks-of-passes" => blocks_of_passes_answer(alloc),
            "bodies-of-translate" => bodies_of_translate_answer(alloc),
            "file" => file_answer(alloc, text),
            "source" => source_answer(alloc, text),
            "status" => status_answer(alloc, rest),
            "message" => message_answer(alloc, rest),
            _ => Err(Mistake::Misspelt),
        }
    }
}

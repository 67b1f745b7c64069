//! The verbs of questions about failures.

use crate::beginnings::beginning_answer;
use crate::failing::failing_answer;
use crate::fault_texts::{build_fault_answer, fault_texts_answer};
use crate::fractions::parse_without_answer;
use crate::job_reads::job_reads_answer;
use crate::lying::{lie_answer, lie_back_answer, lie_turn_answer};
use crate::sharing::sharing_answer;
use crate::showing::{show_of_answer, show_without_answer};
use crate::sources::source_of_answer;
use crate::translating::translate_three_answer;
use rows::current_texts::CurrentTexts;
use rows::sheet::Questions;
use rows::words::{Mistake, bytes_of};
use std::alloc::Global;
use std::rt::Files;

/// Answers questions about failures. The question `source-of` reads a file of the runtime `rt`.
#[derive(Drop)]
pub struct Failures<'a, R: Files> {
    pub rt: &'a R,
}

impl<R: Files> Questions for Failures<'_, R> {
    fn answer(
        &self,
        alloc: Global,
        _texts: &CurrentTexts,
        verb: &str,
        rest: &str,
    ) -> Result<String, Mistake> {
        match verb {
            "failing" => failing_answer(alloc, rest),
            "sharing" => sharing_answer(alloc, rest),
            "parse-without" => parse_without_answer(alloc, rest),
            "show-without" => show_without_answer(alloc, rest),
            "show-of" => show_of_answer(alloc, bytes_of(alloc, rest)?),
            "job-reads" => job_reads_answer(alloc, rest),
            "source-of" => source_of_answer(self.rt, alloc, rest),
            "translate-three" => translate_three_answer(alloc),
            "fault-texts" => fault_texts_answer(alloc, rest),
            "build-fault" => build_fault_answer(alloc, rest),
            _ => answer_of_lies(alloc, verb, rest),
        }
    }
}

/// Answers questions about devices that lie, and about writers that accept a limited number of
/// bytes. Fails with `Misspelt` for any other verb.
fn answer_of_lies(alloc: Global, verb: &str, rest: &str) -> Result<String, Mistake> {
    match verb {
        "lie" => lie_answer(alloc, rest),
        "lie-turn" => lie_turn_answer(alloc, rest),
        "lie-back" => lie_back_answer(alloc, rest),
        "text-into" | "counts-into" | "plan-into" | "code-into" | "show-into" | "translate-into" =>
            beginning_answer(alloc, verb, rest),
        _ => Err(Mistake::Misspelt),
    }
}

//! The verbs of questions about grammars, plans, sentences and passes.

use crate::grammars::{check_answer, could_answer, grammar, parts_answer, read_answer};
use crate::least::{least_answer, strikes_answer};
use crate::passes::{pass_answer, run_answer, run_by_answer, run_bytes_answer, through_answer};
use crate::plans::{list_answer, listing_answer, passes_answer, plan_answer};
use crate::raw_grammars::chain_answer;
use crate::roots::{root_answer, root_bytes_answer};
use crate::sentences::{
    choice_answer, parse_answer, parse_failing_answer, scan_answer, stand_answer, table_answer,
};
use crate::stuck::{assign_answer, stuck_answer};
use crate::value_questions;
use crate::values::new_value;
use ag_grammar::Grammar;
use ag_value::Value;
use rows::current_texts::CurrentTexts;
use rows::sheet::Questions;
use rows::words::{Mistake, bytes_of, number};
use std::alloc::Global;

/// The current value, which the verbs `given`, `letters`, `wrap` and `doubled` set. Each occurrence
/// of an attribute (`$1.x`) in an expression has this value.
#[derive(Drop)]
pub struct CurrentValue {
    pub value: Value,
}

impl Questions for CurrentValue {
    fn follow(&mut self, alloc: Global, verb: &str, rest: &str) -> Result<bool, Mistake> {
        if !matches!(verb, "given" | "letters" | "wrap" | "doubled") {
            return Ok(false);
        }
        self.value = new_value(alloc, verb, rest, &self.value)?;
        Ok(true)
    }

    fn answer(
        &self,
        alloc: Global,
        texts: &CurrentTexts,
        verb: &str,
        rest: &str,
    ) -> Result<String, Mistake> {
        let question = Question {
            alloc,
            texts,
            verb,
            rest,
        };
        question.answer(&self.value)
    }
}

/// A question: its verb, the text after it, and the current texts.
#[derive(Clone, Copy)]
struct Question<'a> {
    alloc: Global,
    texts: &'a CurrentTexts,
    verb: &'a str,
    rest: &'a str,
}

impl Question<'_> {
    /// Returns the text after the verb, or the current text if there is none.
    fn text(&self) -> &str {
        self.texts.text_or(self.rest)
    }

    /// Answers a question. Fails with `Unfit` if it needs an accepted grammar and the current
    /// grammar is rejected.
    fn answer(&self, given: &Value) -> Result<String, Mistake> {
        if !self.is_of_grammar() {
            return self.of_texts(given);
        }
        let grammar = grammar(self.alloc, self.texts.grammar.as_str())?;
        self.of_plans(&grammar)
    }

    /// Returns whether the question needs a current grammar that is accepted. (`check` doesn't: it
    /// is also a question about rejected grammars.)
    fn is_of_grammar(&self) -> bool {
        match self.verb {
            "parts" | "listing" | "assign" | "plan" | "stuck" => true,
            "strikes" | "least" => true,
            "pass" | "through" | "run" | "run-by" | "run-bytes" | "root" | "root-bytes" => true,
            "table" | "choice" | "scan" | "scan-bytes" => true,
            "parse" | "parse-failing" | "stand" => true,
            _ => false,
        }
    }

    /// Answers questions about a grammar's parts, and about assignments, code and certificates.
    /// Calls `of_passes` for each other verb.
    fn of_plans(&self, grammar: &Grammar) -> Result<String, Mistake> {
        let (alloc, rest) = (self.alloc, self.rest);
        match self.verb {
            "parts" => Ok(parts_answer(alloc, grammar)?),
            "listing" => listing_answer(alloc, grammar),
            "assign" => assign_answer(alloc, grammar),
            "plan" => plan_answer(alloc, grammar, rest),
            "stuck" => stuck_answer(alloc, grammar, rest),
            "strikes" => strikes_answer(alloc, grammar),
            "least" => least_answer(alloc, grammar, rest),
            _ => self.of_passes(grammar),
        }
    }

    /// Answers questions about passes and the text of the root. Calls `of_sentences` for each other
    /// verb.
    fn of_passes(&self, grammar: &Grammar) -> Result<String, Mistake> {
        let (alloc, texts) = (self.alloc, self.texts);
        match self.verb {
            "pass" => pass_answer(alloc, grammar, texts, self.rest),
            "through" => through_answer(alloc, grammar, self.text()),
            "run" => run_answer(alloc, grammar, self.text()),
            "run-by" => run_by_answer(alloc, grammar, self.rest),
            "run-bytes" => run_bytes_answer(alloc, grammar, texts, self.rest),
            "root" => root_answer(alloc, grammar, self.text()),
            "root-bytes" => root_bytes_answer(alloc, grammar, self.text()),
            _ => self.of_sentences(grammar),
        }
    }

    /// Answers questions about sentences and their parse tables. Fails with `Misspelt` if no
    /// question has this verb.
    fn of_sentences(&self, grammar: &Grammar) -> Result<String, Mistake> {
        let alloc = self.alloc;
        match self.verb {
            "table" => table_answer(alloc, grammar),
            "choice" => choice_answer(alloc, grammar, self.rest),
            "scan" => scan_answer(alloc, grammar, self.text().as_bytes()),
            "scan-bytes" => scan_answer(alloc, grammar, bytes_of(alloc, self.text())?.as_slice()),
            "parse" => parse_answer(alloc, grammar, self.text()),
            "parse-failing" => parse_failing_answer(alloc, grammar, self.rest),
            "stand" => stand_answer(alloc, grammar, self.text()),
            _ => Err(Mistake::Misspelt),
        }
    }

    /// Answers questions about texts of grammars, and about assignments and code without a grammar.
    /// Calls `value_questions::answer` for each other verb.
    fn of_texts(&self, given: &Value) -> Result<String, Mistake> {
        let (alloc, rest) = (self.alloc, self.rest);
        match self.verb {
            "read" => read_answer(alloc, self.text().as_bytes()),
            "read-bytes" => read_answer(alloc, bytes_of(alloc, self.text())?.as_slice()),
            "could" => could_answer(alloc, self.text()),
            "check" => check_answer(alloc, self.texts.grammar.as_str()),
            "chain" => chain_answer(alloc, number(rest)?),
            "passes" => passes_answer(alloc, rest),
            "list" => list_answer(alloc, rest),
            _ => value_questions::answer(alloc, self.texts, given, self.verb, rest),
        }
    }
}

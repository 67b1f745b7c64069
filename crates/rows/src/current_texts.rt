//! The texts that questions are about: the current text, and the text of the current grammar.

use crate::text_changes::change_text;
use crate::words::Mistake;
use std::alloc::{AllocError, Global};

/// The texts that questions are about.
#[derive(Drop)]
pub struct CurrentTexts {
    /// The current text.
    pub text: String,
    /// The text of the current grammar.
    pub grammar: String,
}

impl CurrentTexts {
    /// Returns empty texts.
    pub fn new(alloc: Global) -> CurrentTexts {
        CurrentTexts {
            text: String::new(alloc),
            grammar: String::new(alloc),
        }
    }

    /// Runs a line if its verb, which is its first word, changes a text; `rest` is the text after
    /// the verb. Returns whether the verb changes one. Fails with `Misspelt` if a word of `rest` is
    /// wrong, and with `NoMemory` if memory is refused.
    pub fn follow(&mut self, alloc: Global, verb: &str, rest: &str) -> Result<bool, Mistake> {
        if change_text(alloc, &mut self.text, verb, rest)? {
            return Ok(true);
        }
        if verb != "grammar" {
            return Ok(false);
        }
        self.keep_grammar(rest)?;
        Ok(true)
    }

    /// Sets the grammar's text to `rest`, or to the current text if `rest` is empty.
    fn keep_grammar(&mut self, rest: &str) -> Result<(), AllocError> {
        self.grammar.clear();
        if rest.is_empty() {
            return self.grammar.push_str(self.text.as_str());
        }
        self.grammar.push_str(rest)
    }

    /// Returns the text after a verb, or the current text if there is none.
    pub fn text_or<'a>(&'a self, rest: &'a str) -> &'a str {
        if rest.is_empty() {
            return self.text.as_str();
        }
        rest
    }
}

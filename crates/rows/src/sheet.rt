//! Runs rows one after the other. Keeps the current texts, and the last answer until it is
//! compared.

use crate::current_texts::CurrentTexts;
use crate::words::{Mistake, first_word};
use std::alloc::{AllocError, Global};
use std::io;

/// Answers the questions of rows.
pub trait Questions {
    /// Runs a line if its verb, the first word, changes the state of these questions, such as a
    /// current value; `_rest` is the text after the verb. Returns whether the verb changes the
    /// state. Fails with the mistake of the line, or with `NoMemory` if memory is refused. This
    /// default is for questions without a state.
    fn follow(&mut self, _alloc: Global, _verb: &str, _rest: &str) -> Result<bool, Mistake> {
        Ok(false)
    }

    /// Answers the question that begins with a verb; `rest` is the text after the verb. Fails with
    /// `Misspelt` if no question has that verb, and otherwise with the mistake of the line, or with
    /// `NoMemory` if memory is refused.
    fn answer(
        &self,
        alloc: Global,
        texts: &CurrentTexts,
        verb: &str,
        rest: &str,
    ) -> Result<String, Mistake>;
}

/// Runs the rows on standard input. Prints each wrong line with its number, from 1, and then the
/// number of right answer lines. Fails if standard input can't be read, if standard output can't be
/// written, or if memory for a line, a message or the rest of an answer is refused. (If memory for
/// an answer or a current text is refused, its line is printed as a wrong one, with `NoMemory`.)
pub fn try_rows<R: Input + Print, Q: Questions>(
    rt: &R,
    alloc: Global,
    questions: &mut Q,
) -> io::Result<()> {
    let mut sheet = Sheet::new(alloc);
    take_lines(rt, alloc, &mut sheet, questions)?;
    println!(rt; "{} answers are right", sheet.right)
}

/// Runs the lines on standard input, and prints what is wrong with each, after its number from 1.
///
/// If a row has too few lines `= ANSWER`, this is found at the first line after the row, apart from
/// comments and empty lines, and is printed with the number of that line. It is not printed if that
/// line has a mistake of its own. After the last row it is printed with the number of the last
/// line. Fails as `try_rows` does.
fn take_lines<R: Input + Print, Q: Questions>(
    rt: &R,
    alloc: Global,
    sheet: &mut Sheet,
    questions: &mut Q,
) -> io::Result<()> {
    let mut number = 0u64;
    for line in rt.lines(alloc) {
        let line = line?;
        number = number.wrapping_add(1);
        print_wrong(rt, number, &sheet.take(alloc, questions, line.as_str())?)?;
    }
    print_wrong(rt, number, &sheet.uncompared(alloc)?)
}

/// Prints what is wrong with a line, unless it is `None`.
fn print_wrong<R: Print>(rt: &R, number: u64, wrong: &Option<String>) -> io::Result<()> {
    match wrong {
        Some(wrong) => println!(rt; "line {number}: {wrong}"),
        None => Ok(()),
    }
}

/// The current texts, the lines of the last answer that were not compared yet (`None` if there are
/// none), and the number of right answer lines.
#[derive(Drop)]
struct Sheet {
    texts: CurrentTexts,
    answer: Option<String>,
    right: u64,
}

impl Sheet {
    /// Returns a sheet with empty texts and no answer.
    fn new(alloc: Global) -> Sheet {
        Sheet {
            texts: CurrentTexts::new(alloc),
            answer: None,
            right: 0,
        }
    }

    /// Runs the next line, and returns what is wrong with it, if anything. Ignores empty lines and
    /// those that begin with `#`.
    fn take<Q: Questions>(
        &mut self,
        alloc: Global,
        questions: &mut Q,
        line: &str,
    ) -> Result<Option<String>, AllocError> {
        if line.is_empty() || line.starts_with('#') {
            return Ok(None);
        }
        match line.strip_prefix("= ") {
            Some(expected) => self.compare(alloc, expected),
            None => self.ask(alloc, questions, line),
        }
    }

    /// Returns a message with the lines of the last answer that were not compared yet, if there are
    /// any, and forgets these lines.
    fn uncompared(&mut self, alloc: Global) -> Result<Option<String>, AllocError> {
        match self.answer.take() {
            Some(answer) => Ok(Some(format!(in alloc; "no line has the answer {answer}")?)),
            None => Ok(None),
        }
    }

    /// Compares the next line of the last answer with the expected line.
    fn compare(&mut self, alloc: Global, expected: &str) -> Result<Option<String>, AllocError> {
        match self.answer.take() {
            Some(answer) => self.compare_line(alloc, answer.as_str(), expected),
            None => Ok(Some(format!(in alloc; "expected {expected}, found no answer")?)),
        }
    }

    /// Compares the first line of an answer with the expected one, and keeps the lines after it.
    fn compare_line(
        &mut self,
        alloc: Global,
        answer: &str,
        expected: &str,
    ) -> Result<Option<String>, AllocError> {
        let line = match answer.split_once('\n') {
            Some((line, rest)) => {
                self.answer = Some(String::from_str(alloc, rest)?);
                line
            }
            None => answer,
        };
        if line != expected {
            return Ok(Some(format!(in alloc; "expected {expected}, found {line}")?));
        }
        self.right = self.right.wrapping_add(1);
        Ok(None)
    }

    /// Runs a line that isn't an answer. Returns what is wrong with it or, if nothing is, a message
    /// if lines of the last answer were not compared.
    fn ask<Q: Questions>(
        &mut self,
        alloc: Global,
        questions: &mut Q,
        line: &str,
    ) -> Result<Option<String>, AllocError> {
        let uncompared = self.uncompared(alloc)?;
        match self.follow(alloc, questions, line) {
            Ok(()) => Ok(uncompared),
            Err(mistake) => Ok(Some(format!(in alloc; "{mistake:?}: {line}")?)),
        }
    }

    /// Runs a line, and keeps the answer if it is a question.
    fn follow<Q: Questions>(
        &mut self,
        alloc: Global,
        questions: &mut Q,
        line: &str,
    ) -> Result<(), Mistake> {
        let (verb, rest) = first_word(line);
        if self.texts.follow(alloc, verb, rest)? || questions.follow(alloc, verb, rest)? {
            return Ok(());
        }
        self.answer = Some(questions.answer(alloc, &self.texts, verb, rest)?);
        Ok(())
    }
}

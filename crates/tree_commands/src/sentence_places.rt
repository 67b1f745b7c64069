//! The node of a tree at a line and column of its sentence.

use crate::indexed::{no_memory, report_of_tree};
use ag_grammar::Terminal;
use ag_grammar::limits::{MAX_TEXT_BYTES, TEXT};
use ag_scan::{Sentence, Token, Tokens, scan};
use ag_value::{NoMemory, Value};
use aggen::{Fault, Translator};
use message_parts::Location;
use message_parts::classes::class_name;
use message_parts::display::PlainText;
use messages::{FaultReport, Position, Source};
use program_io::report_of_sentence;
use std::alloc::{AllocError, Global};
use tree_index::{FileFormat, TokenCounts, TokenRange, TokenWalk, TreeFault, TreeIndex, TreeToken};
use tree_text::ShowFault;
use treefile::Device;

/// What to do about a tree that is not that of the sentence.
const OTHER_SENTENCE: &str = "name the sentence that the tree was made from";

/// A tree file with its index, and the sentence that the command line names. `check_tokens` checks
/// whether the tree has the tokens of the sentence.
#[derive(Clone, Copy)]
pub struct TreeSentence<'a> {
    /// The translator.
    pub translator: &'a Translator,
    /// The path of the tree file.
    pub tree: &'a str,
    /// The index of the tree file.
    pub index: &'a TreeIndex,
    /// The sentence.
    pub sentence: Source<'a>,
}

/// A token as it is in a tree.
#[derive(Drop)]
struct TokenText {
    /// Its literal or its class.
    kind: Terminal,
    /// Its text. A token of the class TEXT has it without the quotes.
    text: String,
}

impl TreeSentence<'_> {
    /// Returns the path, as child numbers from 1, from the root to the node of a symbol at a
    /// position:
    /// - in a token, to the innermost node whose tokens include this one;
    /// - between two tokens, to the innermost node whose tokens include both;
    /// - before the first token and after the last one, to the root.
    ///
    /// Fails with S1 to S4 if the sentence can't be scanned. Fails if the sentence does not have
    /// the position, if its tokens are not the tree's, if a record is damaged or can't be read, and
    /// if memory is refused.
    pub fn node_at<D: Device>(
        self,
        alloc: Global,
        position: Position,
        device: &mut D,
    ) -> Result<Vec<u16>, FaultReport> {
        let grammar = self.translator.grammar();
        match scan(alloc, grammar, self.sentence.bytes) {
            Ok(scanned) => self.node_in(alloc, &scanned, position, device),
            Err(fault) => {
                let fault = Fault::from(fault);
                Err(report_of_sentence(alloc, fault, self.translator, self.sentence))
            }
        }
    }

    /// Returns what `node_at` does, for a sentence that was cut into tokens. Fails as `node_at`
    /// does.
    fn node_in<D: Device>(
        self,
        alloc: Global,
        scanned: &Sentence<'_>,
        position: Position,
        device: &mut D,
    ) -> Result<Vec<u16>, FaultReport> {
        let Some(at) = offset_of(self.sentence.text(), position) else {
            return Err(self.no_place(alloc, position));
        };
        self.check_tokens(alloc, scanned.tokens(), device)?;
        let range = range_at(scanned.tokens(), at);
        match self.find_node(alloc, range) {
            Ok(places) => Ok(places),
            Err(_) => Err(no_memory(alloc)),
        }
    }

    /// Returns the path, as child numbers from 1, from the root to the innermost node of a symbol
    /// whose tokens include all tokens of a range. If `range` is `None`, returns the path of the
    /// root, which has no numbers. Fails if memory is refused.
    fn find_node(self, alloc: Global, range: Option<TokenRange>) -> Result<Vec<u16>, NoMemory> {
        let Some(range) = range else {
            return Ok(Vec::new(alloc));
        };
        let grammar = self.translator.grammar();
        let counts = TokenCounts::new(alloc, grammar, self.index)?;
        self.index.find_covering(alloc, grammar, &counts, range)
    }

    /// Fails if the tokens of the sentence are not those of the tree, if a record is damaged or
    /// can't be read, and if memory is refused. The loop returns in its last iteration at the
    /// latest: a sentence has at most `MAX_TEXT_BYTES` tokens, each of at least one byte.
    fn check_tokens<D: Device>(
        self,
        alloc: Global,
        mut tokens: Tokens<'_>,
        device: &mut D,
    ) -> Result<(), FaultReport> {
        let grammar = self.translator.grammar();
        let Ok(mut walk) = TokenWalk::new(alloc, grammar, self.index) else {
            return Err(no_memory(alloc));
        };
        for _ in 0..=MAX_TEXT_BYTES {
            let of_sentence = tokens.ahead();
            let of_tree = match self.next_of_tree(alloc, &mut walk, device) {
                Ok(token) => token,
                Err(fault) => {
                    return Err(report_of_tree(alloc, ShowFault::Tree(fault), self.tree));
                }
            };
            if of_sentence.is_none() && of_tree.is_none() {
                return Ok(());
            }
            if !is_same(of_sentence, &of_tree) {
                return Err(self.other_token(alloc, of_sentence, &of_tree));
            }
            skip_token(&mut tokens);
        }
        Ok(())
    }

    /// Returns the next token of the tree with its text; `None` after the last one. Fails as
    /// `TokenWalk::next` and `word` do.
    fn next_of_tree<D: Device>(
        self,
        alloc: Global,
        walk: &mut TokenWalk<'_>,
        device: &mut D,
    ) -> Result<Option<TokenText>, TreeFault> {
        match walk.next()? {
            Some(TreeToken::Literal(number)) => Ok(Some(self.literal(alloc, number)?)),
            Some(TreeToken::Word(node)) => Ok(Some(self.word(alloc, node, device)?)),
            None => Ok(None),
        }
    }

    /// Returns the literal with this number as a token. Fails if memory is refused. (The case with
    /// an empty text is not reached: the grammar has each literal of its productions.)
    fn literal(self, alloc: Global, number: u16) -> Result<TokenText, NoMemory> {
        let literals = self.translator.grammar().literals();
        let text = match literals.get(usize::from(number)) {
            Some(literal) => literal.as_str(),
            None => "",
        };
        Ok(TokenText {
            kind: Terminal::Literal(number),
            text: String::from_str(alloc, text)?,
        })
    }

    /// Reads the record of a token of a class, and returns the token. Fails with R1 if the record
    /// is damaged, with D1 if a call of the device fails, and if memory is refused. (The case with
    /// R1 at offset 0 is not reached: the index has the node.)
    fn word<D: Device>(
        self,
        alloc: Global,
        node: u32,
        device: &mut D,
    ) -> Result<TokenText, TreeFault> {
        let grammar = self.translator.grammar();
        let (Some(item), Some(end)) = (self.index.item(grammar, node), self.index.end(node)) else {
            return Err(TreeFault::Damaged(0));
        };
        let format = FileFormat {
            grammar,
            plan: self.translator.plan(),
            pass: self.index.pass(),
        };
        let record = format.read_record(alloc, item, device, end)?;
        let mut text = String::new(alloc);
        if let Some(value) = format.own_value(&record, item, 0) {
            if let Value::Text(lex) = value.to_value(alloc)? {
                push(&mut text, lex.as_str())?;
            }
        }
        Ok(TokenText {
            kind: Terminal::Class(record.number),
            text,
        })
    }

    /// Returns the report of a position that the sentence does not have.
    fn no_place(self, alloc: Global, position: Position) -> FaultReport {
        let mut report = FaultReport::new(alloc, Fault::Usage).with_file(alloc, self.sentence.name);
        let found = &mut report.parts.found;
        let written = write_no_place(found, self.sentence.text(), position);
        report.or_bare(written)
    }

    /// Returns the report that the next token of the sentence is not that of the tree. `None` means
    /// that the sentence, or the tree, has no more tokens.
    fn other_token(
        self,
        alloc: Global,
        of_sentence: Option<Token<'_>>,
        of_tree: &Option<TokenText>,
    ) -> FaultReport {
        let at = match of_sentence {
            Some(token) => token.at as usize,
            None => self.sentence.bytes.len(),
        };
        let location = Location::At(self.sentence.position(at));
        let mut report = FaultReport::new(alloc, Fault::Usage).with_location(
            alloc,
            location,
            self.sentence.name,
        );
        let written = write_other_token(&mut report.parts.found, of_sentence, of_tree);
        let report = report.or_bare(written);
        with_help(report)
    }
}

/// Returns the report of a tree that is not that of the sentence, with what to do.
fn with_help(mut report: FaultReport) -> FaultReport {
    let written = report.parts.help.push_str(OTHER_SENTENCE);
    report.or_bare(written)
}

/// Writes which token the sentence has, and which one the tree has. Names their kinds if both have
/// the same text.
fn write_other_token(
    out: &mut String,
    of_sentence: Option<Token<'_>>,
    of_tree: &Option<TokenText>,
) -> Result<(), AllocError> {
    let is_named = has_same_text(of_sentence, of_tree);
    match of_tree {
        Some(token) => {
            out.push_str("expected ")?;
            write_token(out, token.kind, token.text.as_str(), is_named)?;
            out.push_str(", the next token of the tree")?;
        }
        None => out.push_str("expected the end, as in the tree")?,
    }
    match of_sentence {
        Some(token) => {
            out.push_str(", found ")?;
            write_token(out, token.kind, token.lex, is_named)
        }
        None => out.push_str(", found the end of the sentence"),
    }
}

/// Writes a token as it is written in a sentence: a TEXT with its quotes. If `is_named`, writes the
/// token's kind first.
fn write_token(
    out: &mut String,
    kind: Terminal,
    text: &str,
    is_named: bool,
) -> Result<(), AllocError> {
    if is_named {
        write_kind(out, kind)?;
    }
    let text = PlainText(text);
    match kind {
        Terminal::Class(TEXT) => write!(out, "`\"{text}\"`"),
        _ => write!(out, "`{text}`"),
    }
}

/// Writes the kind of a token, and a space.
fn write_kind(out: &mut String, kind: Terminal) -> Result<(), AllocError> {
    match kind {
        Terminal::Class(number) => write!(out, "the {} ", class_name(number)),
        Terminal::Literal(_) => out.push_str("the literal "),
    }
}

/// Writes that a text does not have a position, and where the position's line ends. If the text has
/// fewer lines, writes where the text ends instead. Lines and columns count from 1, columns in
/// characters.
fn write_no_place(out: &mut String, text: &str, position: Position) -> Result<(), AllocError> {
    let Position { line, column } = position;
    write!(out, "the sentence has no place {line}:{column}, ")?;
    let end = Position::of(text, text.len());
    if end.line < line {
        return write!(out, "it ends at {}:{}", end.line, end.column);
    }
    write!(
        out,
        "its line {line} ends at column {}",
        column_of_end(text, line)
    )
}

/// Returns the column after the last character of a line of a text, which has at least this many
/// lines. Lines and columns count from 1, columns in characters. The LF is not counted.
fn column_of_end(text: &str, line: usize) -> usize {
    let mut number = 1usize;
    let mut column = 1usize;
    for character in text.chars() {
        if character == '\n' {
            if number == line {
                return column;
            }
            number = number.saturating_add(1);
            column = 1;
        } else {
            column = column.saturating_add(1);
        }
    }
    column
}

/// Returns the offset in bytes of a position in a text: a line and a column in characters, both
/// from 1. The ends of lines and of the text are positions too. Returns `None` if the text does not
/// have the position.
fn offset_of(text: &str, position: Position) -> Option<usize> {
    let mut line = 1usize;
    let mut column = 1usize;
    for (offset, character) in text.char_indices() {
        if line == position.line && column == position.column {
            return Some(offset);
        }
        if character == '\n' {
            line = line.saturating_add(1);
            column = 1;
        } else {
            column = column.saturating_add(1);
        }
    }
    if line == position.line && column == position.column {
        Some(text.len())
    } else {
        None
    }
}

/// Returns the range of the token at an offset in bytes of a sentence. Tokens are numbered from 0.
/// If the offset is between two tokens, the range has both. Returns `None` before the first token
/// and after the last one.
fn range_at(mut tokens: Tokens<'_>, at: usize) -> Option<TokenRange> {
    for number in 0..=MAX_TEXT_BYTES as u32 {
        let token = tokens.ahead()?;
        let start = token.at as usize;
        if at < start {
            return Some(TokenRange {
                first: number.checked_sub(1)?,
                last: number,
            });
        }
        if at - start < length_of(token) {
            return Some(TokenRange {
                first: number,
                last: number,
            });
        }
        skip_token(&mut tokens);
    }
    None
}

/// Returns the number of bytes of a token in its sentence.
fn length_of(token: Token<'_>) -> usize {
    match token.kind {
        // the quotes are not part of its text
        Terminal::Class(TEXT) => token.lex.len().saturating_add(2),
        _ => token.lex.len(),
    }
}

/// Skips the next token, if there is one: `Tokens::advance` requires one.
#[tactic(auto, using(std::proofs::lemmas::Option::slice_get_within))]
fn skip_token(tokens: &mut Tokens<'_>) {
    if let Some(_token) = tokens.ahead() {
        tokens.advance();
    }
}

/// Returns whether a token of the sentence and one of the tree have the same kind and text. Returns
/// `false` if either is `None`.
fn is_same(of_sentence: Option<Token<'_>>, of_tree: &Option<TokenText>) -> bool {
    match (of_sentence, of_tree) {
        (Some(token), Some(other)) => token.kind == other.kind && token.lex == other.text.as_str(),
        _ => false,
    }
}

/// Returns whether a token of the sentence and one of the tree have the same text, for a TEXT the
/// text without its quotes. Returns `false` if either is `None`.
fn has_same_text(of_sentence: Option<Token<'_>>, of_tree: &Option<TokenText>) -> bool {
    match (of_sentence, of_tree) {
        (Some(token), Some(other)) => token.lex == other.text.as_str(),
        _ => false,
    }
}

/// Appends a text to another one.
fn push(out: &mut String, text: &str) -> Result<(), NoMemory> {
    Ok(out.push_str(text)?)
}

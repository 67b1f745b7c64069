//! Hints for writers who are used to other languages: what they may have meant where a text is
//! refused.

use crate::found::{begins_with, found_at};
use ag_expr::{Cursor, ExpectedPart as Part, GrammarToken};
use ag_text::Expected;

/// The character that some editors write at the beginning of a file.
pub const BYTE_ORDER_MARK: char = '\u{feff}';

/// What a byte order mark is, and what helps.
pub const MARK: &str = "`\\u{feff}` is a byte order mark, save the text without it";

/// What helps at a comment of another language.
const COMMENT: &str = "grammars and expressions have no comments";

/// What helps at `--` where an operand is expected.
const COMMENT_OR_SIGN: &str =
    "grammars and expressions have no comments, and `-a` is written `(0 - a)`";

/// What helps at a reserved word where an operand is expected.
const RESERVED: &str = "this word is reserved";

/// What helps at a reserved word where a new name is expected.
const RESERVED_NAME: &str = "this word is reserved, use another name";

/// What helps at `symbol` after a production.
const DECLARATION: &str = "declare all symbols before the first production";

/// What helps at `if` or `let` where only an operand is expected.
const PARENTHESES: &str = "put an `if` or a `let` in parentheses here";

/// What helps at a minus before an operand.
const SIGN: &str = "`-a` is written `(0 - a)`";

/// What helps at a single quote.
const QUOTES: &str = "texts and literals are written in double quotes";

/// What helps at `|` in or after a production.
const ALTERNATIVE: &str = "write a production for each alternative";

/// What helps where another language ends the left side of a production or of a rule.
const EQUALS: &str = "a production is written `A = B C { .. }`, and a rule `$0.a = ..;`";

/// What helps at a sign of repeated or optional items.
const LIST: &str = "what is repeated or left out is a symbol with two productions";

/// What helps where a rule does not begin with its target.
const RULE: &str = "a rule is written `$0.a = ..;`";

/// What helps directly after `{` where no rule begins: EBNF has braces around what is repeated.
const BRACES: &str =
    "a rule is written `$0.a = ..;`, and what is repeated is a symbol with two productions";

/// What helps at the beginning of a text that is not a grammar.
const START: &str = "a grammar begins with `start S;`";

/// What helps at a call of an unknown name.
const CALLS: &str =
    "the calls are `len`, `text`, `number`, `keys`, `iserr`, `nth`, `append`, `join`, `get`, `has`, `orelse` and `put`";

/// What helps after the `{` of a table that has keys.
const TABLE: &str = "a table with keys is written `put({}, k, v)`";

/// What helps at a quote that begins no text.
const TEXT: &str = "a text ends with a quote and has only the escapes \\\" \\\\ \\n \\t \\r";

/// What helps at a `$` that begins no occurrence (an attribute such as `$1.sum`).
const OCCURRENCE: &str =
    "an attribute is written `$`, place, `.`, name, without spaces, as in `$1.s`";

/// Hints about characters that begin no token, mostly operators of other languages: the characters,
/// and the hint. The first entry that fits is used, so `!=` comes before `!`.
const SIGNS: [(&str, &str); 11] = [
    ("\"", TEXT),
    ("'", QUOTES),
    ("$", OCCURRENCE),
    ("/", "`a / b` is written `a div b`"),
    ("%", "`a % b` is written `a mod b`"),
    ("!=", "`a != b` is written `(a == b) == 0`"),
    ("!", "`!a` is written `(a) == 0`"),
    (">=", "`a >= b` is written `(a < b) == 0`"),
    (">", "`a > b` is written `b < a`"),
    ("&", "`a < b && c < d` is written `(a < b) * (c < d)`"),
    ("|", "`a < b || c < d` is written `(a < b) + (c < d)`"),
];

/// A text that is refused at an offset, in two parts: before the offset, and from it on.
#[derive(Clone, Copy)]
pub struct Context<'a> {
    /// The part before the offset.
    before: &'a str,
    /// The part from the offset on.
    rest: &'a str,
    /// What `found_at` returns for the offset. None if there is no offset.
    pub found: Option<&'a str>,
}

impl<'a> Context<'a> {
    /// Returns the two parts of a text at an offset in bytes. Both are empty if there is no offset,
    /// or if it is inside a character or after the text.
    pub fn of(text: &'a str, at: Option<usize>) -> Context<'a> {
        match at {
            Some(at) => Context {
                before: text.get(..at).unwrap_or(""),
                rest: text.get(at..).unwrap_or(""),
                found: found_at(text, at),
            },
            None => Context {
                before: "",
                rest: "",
                found: None,
            },
        }
    }

    /// Returns a hint about characters that begin no token, or an empty text.
    pub fn token_hint(&self) -> &'static str {
        if begins_with(self.found, BYTE_ORDER_MARK) {
            return MARK;
        }
        if self.is_comment() {
            return COMMENT;
        }
        if self.before.ends_with('<') && begins_with(self.found, '>') {
            return "`a <> b` is written `(a == b) == 0`";
        }
        for (sign, hint) in &SIGNS {
            if self.rest.starts_with(*sign) {
                return hint;
            }
        }
        ""
    }

    /// Returns a hint about the token at the offset, which is in an expression and can't be there.
    /// Returns an empty text if there is no hint. `expected` is what could be there.
    pub fn expression_hint(&self, expected: &[Expected]) -> &'static str {
        let is_operand = expected.contains(&Expected::Part(Part::Operand))
            || expected.contains(&Expected::Part(Part::Expression));
        if is_operand && begins_with(self.found, '-') {
            return if self.is_comment() {
                COMMENT_OR_SIGN
            } else {
                SIGN
            };
        }
        if self.is_comment() {
            return COMMENT;
        }
        let is_name = expected.contains(&Expected::Part(Part::BoundName));
        match self.found {
            Some("not") => "`not a` is written `(a) == 0`",
            Some("and") => "`a < b and c < d` is written `(a < b) * (c < d)`",
            Some("or") => "`a < b or c < d` is written `(a < b) + (c < d)`",
            Some("true") if is_name => "`true` is written `1`",
            Some("false") if is_name => "`false` is written `0`",
            Some("=") if self.before.ends_with('<') => "`a <= b` is written `(b < a) == 0`",
            Some("if" | "let") if is_operand => PARENTHESES,
            _ if is_operand => self.name_hint(RESERVED),
            Some(_) if expected.contains(&Expected::Part(Part::Sign("}"))) => TABLE,
            _ if is_name && self.is_followed_by('(') => CALLS,
            _ if expected.contains(&Expected::Part(Part::NewName)) => {
                self.name_hint(RESERVED_NAME)
            }
            _ => "",
        }
    }

    /// Returns a hint about what is at the offset, which is outside the expressions of a grammar,
    /// and can't be there. Returns an empty text if there is no hint. `expected` is what could be
    /// there.
    pub fn grammar_hint(&self, expected: &[Expected]) -> &'static str {
        if begins_with(self.found, BYTE_ORDER_MARK) {
            return MARK;
        }
        if self.is_comment() {
            return COMMENT;
        }
        if expected.contains(&Expected::End) && matches!(self.found, Some("symbol")) {
            return DECLARATION;
        }
        match self.found {
            Some(found) => self.sign_hint(found, expected),
            None => "",
        }
    }

    /// Returns a hint about signs of other languages, and about names that can't be there, such as
    /// reserved words.
    fn sign_hint(&self, found: &str, expected: &[Expected]) -> &'static str {
        let is_item = expected.contains(&Expected::Item);
        match found.chars().next() {
            Some('\'') if is_item => QUOTES,
            Some('|') if is_item || expected.contains(&Expected::End) => ALTERNATIVE,
            Some('*' | '+' | '?' | '[') if is_item => LIST,
            Some(':' | '-') if expected.contains(&Expected::Sign("=")) => EQUALS,
            _ if expected.contains(&Expected::Sign("start")) => START,
            _ if expected.contains(&Expected::Rule) => self.rule_hint(found),
            _ if is_item || expected.contains(&Expected::Name) => self.name_hint(RESERVED_NAME),
            _ => "",
        }
    }

    /// Returns a hint about what begins no rule. Directly after `{`, a literal, or a name that no
    /// `=` follows, is probably an item of EBNF.
    fn rule_hint(&self, found: &str) -> &'static str {
        let is_first = self.before.trim_end().ends_with('{');
        match found.chars().next() {
            Some('"') if is_first => BRACES,
            _ if is_first && !self.is_followed_by('=') => self.name_hint(BRACES),
            _ => self.name_hint(RULE),
        }
    }

    /// Returns whether a sign follows what was found.
    fn is_followed_by(&self, sign: char) -> bool {
        let length = self.found.unwrap_or("").len();
        let after = self.rest.get(length..).unwrap_or("");
        after.trim_start().starts_with(sign)
    }

    /// Returns whether a comment of another language begins at the offset or, as `--` can, one
    /// character before it.
    fn is_comment(&self) -> bool {
        let is_second = self.before.ends_with('-') && self.rest.starts_with('-');
        let is_first = |sign: &&str| self.rest.starts_with(*sign);
        is_second || ["//", "#", "--", "/*"].iter().any(is_first)
    }

    /// Returns `hint` if a name was found, and otherwise an empty text. Where a name or an operand is
    /// expected, a name that is refused is a reserved word.
    fn name_hint(&self, hint: &'static str) -> &'static str {
        let Some(found) = self.found else {
            return "";
        };
        match Cursor::new(found).peek() {
            Some(GrammarToken::Name(_)) => hint,
            _ => "",
        }
    }
}

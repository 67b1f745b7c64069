//! The tokens of expressions and of grammars.

/// Punctuation, including the operators that are not names.
#[derive(Clone, Copy, Debug, PartialEq, Eq)]
pub enum Punctuation {
    /// `+`
    Plus,
    /// `-`
    Minus,
    /// `*`
    Times,
    /// `++`
    Join,
    /// `==`
    EqualEqual,
    /// `<`
    Less,
    /// `=`
    Equal,
    /// `(`
    Open,
    /// `)`
    Close,
    /// `[`
    OpenList,
    /// `]`
    CloseList,
    /// `{`
    OpenTable,
    /// `}`
    CloseTable,
    /// `,`
    Comma,
    /// `;`
    Semicolon,
}

/// A token, borrowed from the text.
#[derive(Clone, Copy, Debug, PartialEq, Eq)]
pub enum GrammarToken<'t> {
    /// A number literal.
    Number(i64),
    /// A text literal: the text between its quotes, with the escapes as they are written.
    Text(&'t str),
    /// A name. Reserved words, such as `let`, are names too.
    Name(&'t str),
    /// An occurrence of an attribute, such as `$1.value`: the place (here 1), and the attribute's
    /// name (here `value`).
    Occurrence(u16, &'t str),
    /// Punctuation.
    Punctuation(Punctuation),
}

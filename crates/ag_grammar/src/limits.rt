//! The limits of grammars, expressions, sentences, trees and passes, and the numbers of the token
//! classes (this project's). Contracts, code and messages use these constants.

/// The maximum number of symbols of a grammar.
pub const MAX_SYMBOLS: usize = 256;

/// The maximum number of attributes of a symbol.
pub const MAX_ATTRIBUTES: usize = 16;

/// The maximum number of productions of a grammar.
pub const MAX_PRODUCTIONS: usize = 512;

/// The maximum number of items of a right side.
pub const MAX_ITEMS: usize = 64;

/// The maximum number of children of a production: items of its right side other than literals.
pub const MAX_CHILDREN: usize = 16;

/// The number of rules of a production, or of arguments of a rule, that 16 bits can index. An
/// accepted grammar never has more. Each target and each argument is one of at most 16 attributes
/// at one of at most 17 places. The targets of a production's rules are different, and so are the
/// arguments of a rule.
pub const MAX_RULES: usize = 65_536;

/// The maximum number of distinct literals of a grammar.
pub const MAX_LITERALS: usize = 1_024;

/// The maximum length of a literal, in bytes.
pub const MAX_LITERAL_BYTES: usize = 255;

/// The maximum length of the text of a grammar, and of a sentence, in bytes.
pub const MAX_TEXT_BYTES: usize = 1_048_576;

/// The number of the token class NAME.
pub const NAME: u16 = 0;

/// The number of the token class NUMBER.
pub const NUMBER: u16 = 1;

/// The number of the token class TEXT.
pub const TEXT: u16 = 2;

/// The number of token classes.
pub const CLASS_COUNT: u16 = 3;

/// The maximum length of the text of a token of a sentence, in bytes.
pub const MAX_TOKEN_BYTES: usize = 65_535;

/// The maximum number of levels of an expression. An expression has one level if it contains no
/// other expression, and otherwise one level more than the deepest expression in it. The parts of
/// parentheses, a list, a call, a `let` and an `if` are expressions; operands of operators are not.
pub const MAX_EXPR_LEVELS: usize = 64;

/// The greatest place that an occurrence in a text may name.
pub const MAX_PLACE: u16 = 65_535;

/// An upper bound on the number of passes that a grammar with a legal assignment needs: two for
/// each attribute that it may have. Of two consecutive passes, one in each direction, at least one
/// computes a new attribute.
pub const MAX_PASSES: u16 = 8_192;

/// The maximum depth of a tree; the depth of a leaf is 1.
pub const MAX_DEPTH: usize = 65_536;

/// The maximum number of stored nodes of a tree: all but the literals of the sentence.
pub const MAX_NODES: u32 = 1_048_576;

/// The maximum depth of a tree whose file is reversed, or converted from version 1. Both operations
/// recurse over the depth, and fail if the tree is deeper. No program that wrote version 1 wrote a
/// deeper tree.
pub const MAX_REVERSED_DEPTH: usize = 256;

/// The maximum number of stored nodes of a tree whose file is reversed, or converted from
/// version 1. Both operations fail if the tree has more. No program that wrote version 1 wrote a
/// larger tree.
pub const MAX_REVERSED_NODES: u32 = 65_536;

//! Tree files that are damaged, or whose trees exceed a limit.

ghost use Rattle.treefile.specs.devices.Device.{LeavesContent, Persists};

use crate::trees::frames::{Frame, expected_before, frame_before};
use ag_grammar::limits::{MAX_DEPTH, MAX_NODES, MAX_REVERSED_DEPTH, MAX_REVERSED_NODES, TEXT};
use ag_grammar::{Grammar, Item, Terminal};
use message_parts::Parts;
use message_parts::classes::class_name;
use message_parts::display::PlainText;
use std::alloc::{AllocError, Global};
use treefile::{Device, FileVersion, HEADER_BYTES};

/// What is expected of a tree file.
const TREE_FILE: &str = "expected a tree file, which begins with `AGT2` and the number of a pass";

/// What is expected of a file that `upgrade` converts.
const OLD_FILE: &str =
    "expected a tree file of version 1, which begins with `AGT1` and the number of a pass";

/// What is expected of the number of the pass.
const PASS: &str = "expected a tree file of pass 0";

/// What is wrong with a file that does not begin as a tree file of the expected version.
const ANOTHER_FILE: &str = "found another file";

/// What is wrong with a file of another pass.
const ANOTHER_PASS: &str = "found one of another pass";

/// What to do about a damaged tree file, or one of another pass.
const AGAIN: &str = "make the file again by `aggen parse` with this grammar";

/// What to do about a file that may be of version 1.
const AGAIN_OR_UPGRADE: &str =
    "make the file again by `aggen parse` with this grammar, or convert one that begins with `AGT1` by `aggen upgrade`";

/// What to do about a file that `upgrade` can't convert, since it is not of version 1.
const NO_UPGRADE: &str =
    "a file that begins with `AGT2` needs no upgrade, make any other again by `aggen parse` with this grammar";

/// What to do about a file whose tree has too many levels.
pub const NEST_LESS: &str = "nest the sentence less";

/// What to do about a file whose tree has too many nodes.
pub const SPLIT: &str = "split the sentence";

/// The subject of the messages of P2 and P3: what has no tree within the limit.
const FILE: &str = "the file";

/// How a tree file of pass 0 is read: its version, and the grammar of its tree. The commands that
/// describe damage, `eval` and `upgrade`, read files of pass 0.
#[derive(Clone, Copy)]
pub struct TreeFormat<'a> {
    pub version: FileVersion,
    pub grammar: &'a Grammar,
}

/// Describes R1 of a tree file at the offset `at` in bytes. If a record is damaged, and not the
/// header, the file is read once more from its end. If `expected_before` returns None, the message
/// doesn't say what was expected. If no record that ends at `at` can be read, the message says that
/// no record ends there. If `at` is the end of the header, it says that there are no more records.
pub fn describe_damage<D: Device>(
    alloc: Global,
    parts: &mut Parts,
    format: TreeFormat<'_>,
    tree: &mut D,
    at: u64,
) -> Result<(), AllocError>
    ensures content { LeavesContent (D.is_honest tree.new)
        (D.content tree.old) (D.content tree.new) }
    // The last argument of `Persists` is a condition under which the number of failures has risen:
    // that the call failed with D1. Here it is ⊥ (false), since the result does not say whether a
    // call of the device failed. So the clause never says that the number rises.
    ensures persists { Persists (D.is_honest tree.old) (D.is_honest tree.new)
        (D.failures tree.old) (D.failures tree.new) ⊥ }
{
    if at < HEADER_BYTES {
        return format.describe_header(parts, at);
    }
    let found = frame_before(format.version, tree, at);
    match expected_before(alloc, format.version, format.grammar, tree, at) {
        Some(expected) => format.describe_record(parts, at, found, Some(expected.as_slice())),
        None => format.describe_record(parts, at, found, None),
    }
}

impl TreeFormat<'_> {
    /// Describes R1 in the header: at offset 0 the file does not begin as a tree file of the
    /// version, at any other offset it is of another pass than 0.
    fn describe_header(&self, parts: &mut Parts, at: u64) -> Result<(), AllocError> {
        if at != 0 {
            parts.expected.push_str(PASS)?;
            return parts.add(ANOTHER_PASS, AGAIN);
        }
        let (expected, help) = match self.version {
            FileVersion::One => (OLD_FILE, NO_UPGRADE),
            FileVersion::Two => (TREE_FILE, AGAIN_OR_UPGRADE),
        };
        parts.expected.push_str(expected)?;
        parts.add(ANOTHER_FILE, help)
    }

    /// Describes the record that ends at the offset `at`, if there is one, and the record that is
    /// expected there. `expected` is the result of `expected_before`.
    fn describe_record(
        &self,
        parts: &mut Parts,
        at: u64,
        found: Option<Frame>,
        expected: Option<&[Item]>,
    ) -> Result<(), AllocError> {
        parts.found.push_str("found ")?;
        self.write_found(&mut parts.found, at, found)?;
        if let Some(expected) = expected {
            self.write_expected(&mut parts.expected, expected)?;
        }
        parts.help.push_str(AGAIN)
    }

    /// Writes which record ends at the offset `at`, with the number of bytes of its values, or that
    /// no record ends there. Before the values a body has 3 bytes, with the record's kind and
    /// number.
    fn write_found(
        &self,
        out: &mut String,
        at: u64,
        found: Option<Frame>,
    ) -> Result<(), AllocError> {
        match found {
            Some(frame) => {
                self.write_frame(out, frame)?;
                match frame.bytes.saturating_sub(3) {
                    1 => out.push_str(" with 1 byte of values"),
                    bytes => write!(out, " with {bytes} bytes of values"),
                }
            }
            None if at == HEADER_BYTES => out.push_str("no more records"),
            None => out.push_str("no record that ends here"),
        }
    }

    /// Writes the record that should end at the offset: that of the last of the items whose records
    /// are still to come.
    fn write_expected(&self, out: &mut String, expected: &[Item]) -> Result<(), AllocError> {
        out.push_str("expected ")?;
        match expected.last() {
            Some(item) => {
                self.write_item(out, *item)?;
                out.push_str(self.content_of(*item))
            }
            None => out.push_str("no more records"),
        }
    }

    /// Writes what the record in a frame is: a node, a token, or a record of an unknown kind.
    fn write_frame(&self, out: &mut String, frame: Frame) -> Result<(), AllocError> {
        let number = frame.number;
        match frame.kind {
            0 => self.write_node(out, number),
            1 if number <= TEXT => write!(out, "a {}", class_name(number)),
            1 => write!(out, "a token of the unknown class {number}"),
            kind => write!(out, "a record of the unknown kind {kind}"),
        }
    }

    /// Writes a node by the number of its production.
    fn write_node(&self, out: &mut String, number: u16) -> Result<(), AllocError> {
        match self.grammar.productions().get(usize::from(number)) {
            Some(production) => {
                self.write_item(out, Item::Symbol(production.left))?;
                write!(out, " by production {number}")
            }
            None => write!(out, "a node by the unknown production {number}"),
        }
    }

    /// Returns what the record of an item contains in a file of pass 0.
    fn content_of(&self, item: Item) -> &'static str {
        match item {
            Item::Symbol(number) if self.version == FileVersion::Two && self.has_tokens(number) => {
                " with the texts of its tokens"
            }
            Item::Symbol(_) => " without values",
            Item::Terminal(_) if self.version == FileVersion::One => " with a text in UTF-8",
            Item::Terminal(_) => " with the text that its parent's record has",
        }
    }

    /// Describes P2 of a tree file, and what to do. `upgrade` has a lower limit, since it recurses
    /// over the tree.
    pub fn describe_depth_limit(&self, parts: &mut Parts) -> Result<(), AllocError> {
        let most = match self.version {
            FileVersion::One => MAX_REVERSED_DEPTH,
            FileVersion::Two => MAX_DEPTH,
        };
        parts.add_tree_limit(most, "levels", FILE, NEST_LESS)
    }

    /// Describes P3 of a tree file, and what to do. `upgrade` has a lower limit: no program wrote a
    /// larger tree in version 1.
    pub fn describe_node_limit(&self, parts: &mut Parts) -> Result<(), AllocError> {
        let most = match self.version {
            FileVersion::One => MAX_REVERSED_NODES,
            FileVersion::Two => MAX_NODES,
        };
        parts.add_tree_limit(most as usize, "nodes", FILE, SPLIT)
    }

    /// Returns whether some production of a symbol has a token of a class. The records of its nodes
    /// have the texts of these tokens.
    fn has_tokens(&self, symbol: u16) -> bool {
        self.grammar.productions().iter().any(|production| production.left == symbol
            && has_token(production.items.as_slice()))
    }

    /// Writes an item: a node of a symbol, or a token of a class. A literal has no record, so
    /// nothing is written.
    fn write_item(&self, out: &mut String, item: Item) -> Result<(), AllocError> {
        match item {
            Item::Symbol(number) => match self.grammar.symbols().get(usize::from(number)) {
                Some(symbol) => write!(out, "a node of `{}`", PlainText(symbol.name.as_str())),
                None => out.push_str("a node"),
            },
            Item::Terminal(Terminal::Class(number)) => write!(out, "a {}", class_name(number)),
            Item::Terminal(Terminal::Literal(_)) => Ok(()),
        }
    }
}

/// Returns whether a token of a class is among the items of a right side.
fn has_token(items: &[Item]) -> bool {
    items
        .iter()
        .any(|item| matches!(item, Item::Terminal(Terminal::Class(_))))
}

//! Tests whether a raw grammar is readable: each literal has at least one byte and contains no
//! separator, and each class is NAME, NUMBER or TEXT.
ghost use Rattle.std.specs.Prelude.{◌≡◌, ◌↔◌, IsTrue};
ghost use Rattle.std.specs.List.{list_all};
ghost use Rattle.normalform.specs.faults.Faults.{IsReadable};
ghost use Rattle.normalform.specs.faults.Readable.{is_separator, readable_text, readable_item};
ghost use Rattle.normalform.specs.faults.Readable.{readable_in};

use ag_grammar::limits::CLASS_COUNT;
use ag_grammar::{RawGrammar, RawItem, RawProduction};

/// Returns whether a byte separates the tokens of a sentence.
fn is_separator(byte: u8) -> bool
    ensures { result ≡ is_separator byte }
{
    byte == b' ' || byte == b'\t' || byte == b'\r' || byte == b'\n'
}

/// Returns whether a literal is not empty and has no separator.
fn is_readable_text(text: &[u8]) -> bool
    ensures { result ≡ readable_text text.now }
{
    if text.is_empty() {
        return false;
    }
    for byte in text {
        if is_separator(*byte) {
            return false;
        }
    }
    true
}

/// Returns whether an item is readable: it is the name of a symbol, or a literal that has at least
/// one byte and contains no separator, or one of the classes NAME, NUMBER and TEXT.
fn is_readable_item(item: &RawItem) -> bool
    ensures { result ≡ readable_item item.now }
{
    match item {
        RawItem::Name(_) => true,
        RawItem::Literal(text) => is_readable_text(text.as_str().as_bytes()),
        RawItem::Class(class) => *class < CLASS_COUNT,
    }
}

/// Returns whether the items of a production are readable.
fn is_readable_in(production: &RawProduction) -> bool
    ensures { result ≡ readable_in production.now }
{
    for item in production.items.as_slice() {
        if !is_readable_item(item) {
            return false;
        }
    }
    true
}

/// Returns whether the items of productions are readable.
fn are_readable(productions: &[RawProduction]) -> bool
    ensures { result ≡ list_all readable_in productions.now }
{
    for production in productions {
        if !is_readable_in(production) {
            return false;
        }
    }
    true
}

/// Returns whether a raw grammar is readable: each class is NAME, NUMBER or TEXT (0 to 2), and each
/// literal has at least one byte and contains no space, tab, CR or LF. Every raw grammar that is
/// parsed from a text is readable. If a program makes a raw grammar in another way, this function
/// tests what `check` requires. Takes no memory.
pub fn is_readable(raw: &RawGrammar) -> bool
    ensures { IsTrue result ↔ IsReadable raw.now }
{
    are_readable(raw.productions.as_slice())
}

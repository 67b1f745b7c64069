//! A law of the texts of grammars: the contract of a function that does nothing.

ghost use Rattle.aggen.specs.Checking.{TextsAreReadable};

/// States that the grammar that a text reads as is readable: its literals are not empty and have no
/// space, tab, CR or LF, and its classes are known. The check of a grammar requires this.
pub fn texts_are_readable()
    ensures { TextsAreReadable }
{}

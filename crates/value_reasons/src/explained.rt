//! The grammar, its text and the index of a tree file, from which explanations are made.

use ag_grammar::RawGrammar;
use ag_text::read_grammar;
use ag_value::NoMemory;
use message_parts::Source;
use std::alloc::Global;
use tree_index::{FileFormat, TreeIndex};

/// The index of a tree file, and its grammar, whose text is read again for the positions of rules.
/// The struct does not have the file: each call that reads records has an argument `device`, which
/// has to contain it.
#[derive(Drop)]
pub struct ExplainedTree<'a> {
    /// The allocator of the records that are read, and of the texts that calls make.
    pub(crate) alloc: Global,
    /// The grammar's text, with the name of its file.
    pub(crate) source: Source<'a>,
    /// The grammar as it was read from this text, with the offsets of its rules.
    pub(crate) raw: RawGrammar,
    /// How records are read: the grammar, its plan and the file's pass.
    pub(crate) format: FileFormat<'a>,
    /// The index of the file.
    pub(crate) index: &'a TreeIndex,
}

impl<'a> ExplainedTree<'a> {
    /// Reads the text of a grammar again, and returns the result with the format and the index of a
    /// tree file of that grammar. Fails with NoMemory if memory is refused, and also if the text is
    /// not that of a grammar. The text of an accepted grammar always is.
    pub fn new(
        alloc: Global,
        source: Source<'a>,
        format: FileFormat<'a>,
        index: &'a TreeIndex,
    ) -> Result<ExplainedTree<'a>, NoMemory> {
        // an accepted grammar's text reads as a grammar unless memory is refused
        let Ok(raw) = read_grammar(alloc, source.bytes) else {
            return Err(NoMemory::NoMemory);
        };
        Ok(ExplainedTree {
            alloc,
            source,
            raw,
            format,
            index,
        })
    }
}

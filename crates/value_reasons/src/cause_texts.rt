//! What the message of O1 says of the error that the root's `out` is.

ghost use Rattle.std.specs.Prelude.{IsErrOf};
ghost use Rattle.treefile.specs.devices.Device.{LeavesContent, Persists};

use crate::explained::ExplainedTree;
use crate::tokens::position_of_token;
use ag_grammar::{Grammar, Target};
use ag_value::{NoMemory, Text};
use causes::{Cause, ChainStart, find_cause, tokens_before};
use message_parts::Source;
use planchecker::Plan;
use std::alloc::Global;
use tree_index::{FileFormat, NodePath, TokenCounts, TreeFault, TreeIndex};
use treefile::Device;

/// The grammar and the sentence of a translation that is an error, for the message of O1. The tree
/// file is an argument of `describe_cause`.
#[derive(Clone, Copy)]
pub struct ErrorTranslation<'a> {
    /// The grammar.
    pub grammar: &'a Grammar,
    /// The plan of its passes.
    pub plan: &'a Plan,
    /// The grammar's text.
    pub source: Source<'a>,
    /// The sentence. `None` if the tree came from a file.
    pub sentence: Option<Source<'a>>,
}

impl<'a> ErrorTranslation<'a> {
    /// Returns the part of the message of O1 that follows the error's value: the rule in which the
    /// error arises, the rule's position, the place of the rule's node, the values of the rule's
    /// arguments, and the number of rules that passed the error on. The place is in the sentence
    /// or, if there is none, in the tree. `device` contains the file of the last pass. This file
    /// was just written, so its index is made without reading values (`TreeIndex::read_shape`).
    ///
    /// Returns `None` if no cause is found (`find_cause`). Fails with R1 if the file is damaged,
    /// with P2 or P3 if its tree exceeds a limit, with D1 if a call of the device fails, and if
    /// memory is refused.
    pub fn describe_cause<D: Device>(
        &self,
        alloc: Global,
        device: &mut D,
    ) -> Result<Option<String>, TreeFault>
        ensures content { LeavesContent (D.is_honest device.new)
            (D.content device.old) (D.content device.new) }
        ensures persists { Persists (D.is_honest device.old) (D.is_honest device.new)
            (D.failures device.old) (D.failures device.new) (IsErrOf result TreeFault.Device) }
    {
        let index = TreeIndex::read_shape(alloc, self.grammar, self.plan, device)?;
        let start = ChainStart {
            places: &[],
            target: Target {
                place: 0,
                attr: self.out_number(),
            },
        };
        let Some(cause) = find_cause(alloc, self.grammar, &index, &start, device)? else {
            return Ok(None);
        };
        let format = FileFormat {
            grammar: self.grammar,
            plan: self.plan,
            pass: index.pass(),
        };
        let tree = ExplainedTree::new(alloc, self.source, format, &index)?;
        let place = self.place_of(&tree, &cause, device)?;
        let mut text = String::new(alloc);
        tree.write_cause(&mut text, &cause, place.as_str(), device)?;
        Ok(Some(text))
    }

    /// Returns the number of the start symbol's attribute `out`. An accepted grammar has this
    /// attribute; without it the number is 0.
    fn out_number(&self) -> u16 {
        match self
            .grammar
            .symbols()
            .get(usize::from(self.grammar.start()))
        {
            Some(symbol) => number_of_out(symbol.syn.as_slice()),
            None => 0,
        }
    }

    /// Returns a text that says where the node of a cause is: in the sentence or, if there is none,
    /// in the tree.
    fn place_of<D: Device>(
        &self,
        tree: &ExplainedTree<'_>,
        cause: &Cause,
        device: &mut D,
    ) -> Result<String, TreeFault>
        ensures content { LeavesContent (D.is_honest device.new)
            (D.content device.old) (D.content device.new) }
        ensures persists { Persists (D.is_honest device.old) (D.is_honest device.new)
            (D.failures device.old) (D.failures device.new) (IsErrOf result TreeFault.Device) }
    {
        if let Some(sentence) = self.sentence {
            return Ok(self.place_in_sentence(tree, cause, sentence)?);
        }
        let mut tokens = String::new(tree.alloc);
        tree.write_first_tokens(&mut tokens, cause.node, device)?;
        Ok(place_in_tree(tree.alloc, cause, tokens.as_str())?)
    }

    /// Returns a text with the position, in a sentence, of the first token of a cause's node. For a
    /// node without tokens this is the position of the next token, or the sentence's end. The text
    /// is empty if no position is found.
    fn place_in_sentence(
        &self,
        tree: &ExplainedTree<'_>,
        cause: &Cause,
        sentence: Source<'_>,
    ) -> Result<String, NoMemory> {
        let alloc = tree.alloc;
        let counts = TokenCounts::new(alloc, self.grammar, tree.index)?;
        let places = cause.places.as_slice();
        let before = tokens_before(self.grammar, tree.index, &counts, places);
        let position = match before {
            Some(before) => position_of_token(alloc, self.grammar, sentence, before),
            None => None,
        };
        match position {
            Some(position) => Ok(format!(in alloc; "{position}")?),
            None => Ok(String::new(alloc)),
        }
    }
}

/// Returns the number of the attribute `out` among names; 0 if there is none.
fn number_of_out(names: &[Text]) -> u16 {
    let mut number = 0u16;
    for name in names {
        if name.as_str() == "out" {
            return number;
        }
        number = number.saturating_add(1);
    }
    0
}

/// Returns a text that says where a cause's node is in its tree: the node's path, and its first
/// tokens `tokens` if it has any.
fn place_in_tree(alloc: Global, cause: &Cause, tokens: &str) -> Result<String, NoMemory> {
    let path = NodePath::of_places(alloc, cause.places.as_slice())?;
    if tokens.is_empty() {
        return Ok(format!(in alloc; " at the node {path}")?);
    }
    Ok(format!(in alloc; " at the node {path} (`{tokens}`)")?)
}

//! Parsing a sentence: the parser reads the tokens once, from left to right, and writes the records
//! of their one tree. It has one token of look-ahead, and a stack of open nodes instead of
//! recursion.
ghost use Rattle.std.specs.Prelude.{◌≡◌, ℕ, false, Err, IfErr, IfOk, IsErrOf, OnOk};
ghost use Rattle.ag_grammar.specs.grammars.Tree.{node_count, IsWithinLimits, Tree};
ghost use Rattle.ag_grammar.specs.grammars.Tree.{max_depth, max_nodes};
ghost use Rattle.ag_scan.specs.TokenReader.{offset_at};
ghost use Rattle.ag_scan.specs.Tokens.{FitAll};
ghost use Rattle.ag_scan.specs.Words.{vocabulary_of};
ghost use Rattle.treefile.specs.records.FirstFile.{IsFirstFile};
ghost use Rattle.treefile.specs.framing.Beginning.{AddsFrames, BeginsFile};
ghost use Rattle.treefile.specs.devices.Device.{WhenHonest};
ghost use Rattle.treefile.specs.records.TreeFile.{header, version_two};
ghost use Rattle.llparse.specs.sentence.Parsing.{task_of, IsParsed, IsRefused};
ghost use Rattle.llparse.specs.sentence.Refusals.{BreaksWriter};
ghost use Rattle.llparse.specs.sentence.Sentences.{words_of, IsTreeWith};
ghost use Rattle.llparse.specs.sentence.Sentences.{IsUnexpectedAt, LeavesOnlyDeeper, LeavesOnlyLarger};
ghost use Rattle.llparse.specs.table.Tables.{FitsGrammar};

use crate::sentence::language::Language;
use crate::sentence::parse_fault::ParseFault;
use crate::sentence::parser::{Parser, new_node, next_item, put_node};
use crate::sentence::tokens::unexpected;
use crate::table::lookup::Tables;
use ag_grammar::{Grammar, Item};
use ag_scan::Sentence;
use std::alloc::Global;
use treefile::{Device, Writer};

/// Appends the records of the one tree of the tokens to the device, and returns the number of
/// nodes. Fails as `parse` does.
#[inline(never)]
fn run<D: Device>(
    alloc: Global,
    language: &Language<'_>,
    sentence: &Sentence<'_>,
    device: &mut D,
    writer: &mut Writer,
) -> Result<u32, ParseFault>
    requires tables { FitsGrammar language.now.grammar.now language.now.tables.now }
    requires tokens { FitAll (vocabulary_of language.now.grammar.now) sentence.now }
    requires begun { writer.old ≡ record { written = 0; is_broken = false } }
    ensures parsed { IfOk result (λ count. IsParsed (task_of language.now.grammar.now sentence.now
        (D.is_honest device.new) (D.content device.old)) count (D.content device.new)) }
    ensures written { IfOk result (λ count. writer.new
        ≡ record { written = count; is_broken = false }) }
    ensures refused { IfErr result (IsRefused (task_of language.now.grammar.now sentence.now
        (D.is_honest device.new) (D.content device.old)) (offset_at sentence.now)) }
    ensures left { IfErr result (λ fault. WhenHonest (D.is_honest device.new)
        (AddsFrames (D.content device.old) (D.content device.new) (Err fault))) }
    ensures device { BreaksWriter D.is_honest D.failures device.old device.new
        writer.new.is_broken (IsErrOf result ParseFault.Device) }
{
    let mut parser = Parser::new(alloc, sentence);
    let start = language.grammar.start();
    let mut node = new_node(language.tables, &parser.tokens, start, 0)?;
    loop {
        match next_item(language.grammar, &mut node) {
            Some(Item::Terminal(terminal)) => {
                parser.take(alloc, terminal, device, writer)?;
            }
            Some(Item::Symbol(symbol)) => node = parser.open(language.tables, node, symbol)?,
            None => {
                let texts = parser.texts_from(node.base);
                put_node(node.production, texts, device, writer)?;
                parser.texts.truncate(node.base);
                let Some(outer) = parser.waiting.pop() else {
                    break;
                };
                node = outer;
            }
        }
    }
    if parser.tokens.ahead().is_some() {
        return Err(unexpected(&parser.tokens));
    }
    Ok(parser.count)
}

/// Appends the frames of the one tree of a sentence's tokens to the device, after the header, so
/// that the content is the tree's file of pass 0. Returns the number of the tree's nodes. There is
/// one frame for each node of a symbol, after those of its children from left to right, and one for
/// each token of a class; a literal has no frame, and is not a node. The record of a symbol's node
/// has the texts of the tokens of a class among its children.
///
/// Requires tables of the grammar, a sentence whose tokens fit the grammar, and a writer that was
/// just begun on the device with pass 0. The tokens are taken one by one. The parser keeps the
/// texts of those tokens of a class that are children of open nodes. Takes memory for these texts,
/// for a stack of sixteen bytes for each open node except the innermost one, and for one frame.
///
/// Fails with P1 Unexpected if no tree has these tokens, unless a limit is reached first. Fails
/// with P2 TooDeep or P3 TooManyNodes if the limit is reached at some token or at the end. This
/// means: Some tree begins with the tokens before this point, and when the next node of this tree
/// is to be opened, at least 65,536 nodes are open (P2), or at least 1,048,576 nodes were opened
/// (P3). Each tree that begins with these tokens and continues with the look-ahead there is beyond
/// the limit. So each tree with all tokens is beyond the limit; there may be no such tree. Fails
/// with D1 Device if the device failed, and with NoMemory if memory is refused.
///
/// After a fault an honest device has a prefix, possibly all, of a header of pass 0 followed by
/// frames. Each body has 3 to 285,212,675 bytes, the lengths that a tree file allows
/// (`docs/FORMATS.md`). The contract does not say that the bodies are records of a tree: after P1
/// there is no tree. The writer is broken after D1, and after no other fault.
pub fn parse<D: Device>(
    alloc: Global,
    grammar: &Grammar,
    tables: &Tables,
    sentence: &Sentence<'_>,
    device: &mut D,
    writer: &mut Writer,
) -> Result<u32, ParseFault>
    requires tables { FitsGrammar grammar.now tables.now }
    requires tokens { FitAll (vocabulary_of grammar.now) sentence.now }
    requires begun { writer.old ≡ record { written = 0; is_broken = false } }
    requires header { WhenHonest (D.is_honest device.old)
        (D.content device.old ≡ header version_two 0) }

    // Ok: there is one tree, it is within the limits, and its file is written. (`one` holds after a
    // failure too.)
    ensures tree { IfOk result (λ _. (t : Tree)
        × IsTreeWith grammar.now (words_of sentence.now) t) }
    ensures one { (t u : Tree) → IsTreeWith grammar.now (words_of sentence.now) t
        → IsTreeWith grammar.now (words_of sentence.now) u → t ≡ u }
    ensures limits { (t : Tree) → IsTreeWith grammar.now (words_of sentence.now) t
        → OnOk result (IsWithinLimits max_depth max_nodes t) }
    ensures count { (t : Tree) → IsTreeWith grammar.now (words_of sentence.now) t
        → IfOk result (λ count. count ≡ node_count t) }
    ensures file { (t : Tree) → IsTreeWith grammar.now (words_of sentence.now) t
        → OnOk result (WhenHonest (D.is_honest device.new)
        (IsFirstFile version_two grammar.now t (D.content device.new))) }
    ensures written { IfOk result (λ count. writer.new
        ≡ record { written = count; is_broken = false }) }

    // Err: no tree has the tokens, or each is beyond the limit, which was reached.
    ensures unexpected { (at : ℕ) → result ≡ Err (ParseFault.Unexpected at)
        → IsUnexpectedAt grammar.now sentence.now at }
    ensures none { (at : ℕ) (t : Tree) → result ≡ Err (ParseFault.Unexpected at)
        → IsTreeWith grammar.now (words_of sentence.now) t → ⊥ }
    ensures deep { IsErrOf result ParseFault.TooDeep
        → LeavesOnlyDeeper max_depth grammar.now (words_of sentence.now) }
    ensures large { IsErrOf result ParseFault.TooManyNodes
        → LeavesOnlyLarger max_nodes grammar.now (words_of sentence.now) }

    // Err: an honest device has a prefix of a header of pass 0 followed by frames.
    ensures left { IfErr result (λ _. WhenHonest (D.is_honest device.new)
        (BeginsFile 0 (D.content device.new))) }

    // The writer is broken exactly if the result is D1, and then the failures of the device rose. A
    // device that is honest after the call was honest before.
    ensures device { BreaksWriter D.is_honest D.failures device.old device.new
        writer.new.is_broken (IsErrOf result ParseFault.Device) }
{
    let language = Language { grammar, tables };
    run(alloc, &language, sentence, device, writer)
}

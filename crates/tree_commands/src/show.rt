//! The command that prints a tree file as text or JSON: `show`.

use crate::indexed::{no_memory, no_node, places_of, read_index, report_of_tree};
use ag_grammar::Grammar;
use aggen::{Fault, Translator};
use command_line::ShowWords;
use messages::FaultReport;
use program_io::Session;
use std::alloc::Global;
use std::io;
use std::rt::Files;
use tree_index::{FileFormat, SentenceWalk};
use tree_text::{SelectedAttribute, TreeText, selected_attribute, write_tree};
use treefile::Device;

/// Prints nodes of a tree file: the node that the command line names, or the root if it names none,
/// and the nodes below. Reads the grammar, and then the whole tree file, before it prints
/// anything.
///
/// Fails:
/// - if an input can't be read or is refused, if the tree file is damaged, and if its tree exceeds
///   a limit;
/// - if the text that names the node is not a path, and if the tree does not have the node;
/// - if the grammar lacks an attribute that the command line names;
/// - if a call on the tree file fails (D1), if the output fails (O2), and if memory is refused.
///
/// The records are read again while they are printed. So a part of the output may have been printed
/// before O2, NoMemory or D1, and before R1 if something changes the file meanwhile.
pub fn show_tree<R: Files + Input + Print>(
    session: &mut Session<'_, R>,
    words: &ShowWords<'_>,
) -> Result<(), FaultReport> {
    let translator = session.read_translator(words.grammar)?;
    let mut tree = session.open_tree(words.tree)?;
    show_device(session.rt, session.alloc, &translator, words, &mut tree)
}

/// Prints the nodes of the tree file on a device. Fails as `show_tree` does.
fn show_device<R: Print, D: Device>(
    rt: &R,
    alloc: Global,
    translator: &Translator,
    words: &ShowWords<'_>,
    device: &mut D,
) -> Result<(), FaultReport> {
    let grammar = translator.grammar();
    let places = places_of(alloc, words.node)?;
    let only = selection_of(alloc, grammar, words.only.as_slice())?;
    let index = read_index(alloc, translator, words.tree, device)?;
    let mut walk = SentenceWalk::new(alloc, grammar, &index);
    match walk.begin_at(alloc, places.as_slice()) {
        Ok(Some(_)) => {}
        Ok(None) => return Err(no_node(alloc, grammar, &index, places.as_slice())),
        Err(_) => return Err(no_memory(alloc)),
    }
    let text = TreeText {
        format: FileFormat {
            grammar,
            plan: translator.plan(),
            pass: index.pass(),
        },
        index: &index,
        only: only.as_slice(),
        depth: words.depth,
        width: words.width,
        json: words.json,
    };
    let mut out = io::writer(rt);
    match write_tree(alloc, &text, &mut walk, device, &mut out) {
        Ok(()) => Ok(()),
        Err(fault) => Err(report_of_tree(alloc, fault, words.tree)),
    }
}

/// Returns the attributes of these names, such as `L.sum`. Fails if the grammar lacks one of
/// them, and if memory is refused.
fn selection_of(
    alloc: Global,
    grammar: &Grammar,
    names: &[&str],
) -> Result<Vec<SelectedAttribute>, FaultReport> {
    let mut selection = Vec::new(alloc);
    for name in names {
        match selected_attribute(grammar, name) {
            Ok(selected) => selection.push(selected).map_err(|_| no_memory(alloc))?,
            Err(fault) => {
                let mut report = FaultReport::new(alloc, Fault::Usage);
                let written = fault.describe(&mut report.parts, grammar, name);
                return Err(report.or_bare(written));
            }
        }
    }
    Ok(selection)
}

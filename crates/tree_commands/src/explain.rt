//! The command that explains values in a tree file: `explain`.

use crate::indexed::{
    no_attribute, no_memory, no_node, not_last_pass, places_of, read_index, report_of_tree,
};
use crate::sentence_places::TreeSentence;
use crate::work_folder::TreePath;
use aggen::{Fault, Translator};
use agoutput::write_text;
use command_line::{ExplainWords, NodeWords, PlaceInSentence};
use message_parts::display::PlainText;
use messages::{FaultReport, Position, Source};
use program_io::{Session, build_translator};
use std::alloc::{AllocError, Global};
use std::io;
use std::rt::Files;
use tree_index::{FileFormat, TreeIndex};
use tree_text::ShowFault;
use treefile::Device;
use value_reasons::{ExplainedTree, NodeRequest, write_errors};

/// Prints values of a node of a tree file, with the rules that computed them. The node is the one
/// that the command line names, or the root if it names none. The values are those of the
/// attributes that the command line names, or all if it names none. With `--errors` prints the
/// rules of the tree in which errors arise instead. Reads the grammar, then the sentence, if the
/// command line names one, and then the whole tree file. Prints nothing before that.
///
/// Fails:
/// - if an input can't be read or is refused, if the tree file is damaged, and if its tree exceeds
///   a limit;
/// - if the text that names the node is not a path, and if the tree does not have the node;
/// - if the sentence does not have the line and column, and if its tokens are not the tree's;
/// - if the node lacks an attribute that the command line names;
/// - with `--errors`, if the tree file is not of the last pass;
/// - if a call on the tree file fails (D1), if the output fails (O2), and if memory is refused.
///
/// With `--errors` the records are read again while lines are printed. So a part of the output may
/// have been printed before O2, NoMemory or D1, and before R1 if something changes the file
/// meanwhile.
pub fn explain_tree<R: Files + Input + Print>(
    session: &mut Session<'_, R>,
    words: &ExplainWords<'_>,
) -> Result<(), FaultReport> {
    let (rt, alloc) = (session.rt, session.alloc);
    let bytes = session.read(words.grammar)?;
    let source = Source::new(words.grammar.name(), bytes.as_slice());
    let translator = build_translator(alloc, source)?;
    let sentence = read_sentence(session, words.node)?;
    let path = match TreePath::find(rt, alloc, words.tree) {
        Ok(path) => path,
        Err(_) => return Err(no_memory(alloc)),
    };
    let mut tree = session.open_tree(path.as_str())?;
    let explaining = ExplanationRun {
        translator: &translator,
        source,
        sentence: sentence.as_slice(),
        path: path.as_str(),
        is_chosen: path.is_chosen(),
    };
    explaining.run(rt, alloc, words, &mut tree)
}

/// Returns the bytes of the sentence, if the command line names the node by line and column, and
/// otherwise no bytes. Fails if the sentence can't be read, and if memory is refused.
fn read_sentence<R: Files + Input>(
    session: &mut Session<'_, R>,
    node: NodeWords<'_>,
) -> Result<Vec<u8>, FaultReport> {
    match node {
        NodeWords::At(place) => session.read(place.sentence),
        NodeWords::None | NodeWords::Path(_) => Ok(Vec::new(session.alloc)),
    }
}

/// Returns the child numbers, from 1, of the path by which the command line names the node. Returns
/// an empty list if it names the node by line and column, or not at all. Fails if the text is not a
/// path, and if memory is refused.
fn places_of_path(alloc: Global, node: NodeWords<'_>) -> Result<Vec<u16>, FaultReport> {
    match node {
        NodeWords::Path(path) => places_of(alloc, Some(path)),
        NodeWords::None | NodeWords::At(_) => Ok(Vec::new(alloc)),
    }
}

/// A tree file that is explained: its translator with the text of the grammar, its sentence, and
/// its path.
#[derive(Clone, Copy)]
struct ExplanationRun<'a> {
    translator: &'a Translator,
    /// The name and the text of the grammar.
    source: Source<'a>,
    /// The bytes of the sentence; empty if the command line does not name the node by line and
    /// column.
    sentence: &'a [u8],
    /// The path of the tree file.
    path: &'a str,
    /// Whether the tree file was chosen in a folder, so that its path has to be printed.
    is_chosen: bool,
}

impl<'a> ExplanationRun<'a> {
    /// Prints the explanation of a node of the tree file on a device or, with `--errors`, the rules
    /// in which errors arise. Fails as `explain_tree` does after it has opened the tree file.
    fn run<R: Print, D: Device>(
        self,
        rt: &R,
        alloc: Global,
        words: &ExplainWords<'_>,
        device: &mut D,
    ) -> Result<(), FaultReport> {
        // a text that is not a path is refused before the tree file is read
        let given = places_of_path(alloc, words.node)?;
        let index = read_index(alloc, self.translator, self.path, device)?;
        let places = match words.node {
            NodeWords::At(place) => self.places_at(alloc, place, &index, device)?,
            NodeWords::None | NodeWords::Path(_) => given,
        };
        let grammar = self.translator.grammar();
        let Some(node) = index.find(grammar, places.as_slice()) else {
            return Err(no_node(alloc, grammar, &index, places.as_slice()));
        };
        self.check(alloc, words, &index, node)?;
        let indexed = IndexedRun {
            run: self,
            index: &index,
        };
        let printed = if words.errors {
            indexed.print_errors(rt, alloc, device)
        } else {
            let request = NodeRequest {
                places: places.as_slice(),
                names: words.attributes.as_slice(),
                width: words.width,
            };
            indexed.print_node(rt, alloc, &request, device)
        };
        match printed {
            Ok(()) => Ok(()),
            Err(fault) => Err(report_of_tree(alloc, fault, self.path)),
        }
    }

    /// Returns the path, as child numbers from 1, from the root to the node at a line and column of
    /// the sentence. Fails as `TreeSentence::node_at` does.
    fn places_at<D: Device>(
        self,
        alloc: Global,
        place: PlaceInSentence<'_>,
        index: &TreeIndex,
        device: &mut D,
    ) -> Result<Vec<u16>, FaultReport> {
        let tree = TreeSentence {
            translator: self.translator,
            tree: self.path,
            index,
            sentence: Source::new(place.sentence.name(), self.sentence),
        };
        let position = Position {
            line: place.line,
            column: place.column,
        };
        tree.node_at(alloc, position, device)
    }

    /// Fails if `--errors` is given and the file is not of the last pass, and if the node lacks an
    /// attribute that the command line names.
    fn check(
        self,
        alloc: Global,
        words: &ExplainWords<'_>,
        index: &TreeIndex,
        node: u32,
    ) -> Result<(), FaultReport> {
        let (grammar, plan) = (self.translator.grammar(), self.translator.plan());
        let last = plan.assignment().passes();
        if words.errors && index.pass() != last {
            return Err(not_last_pass(alloc, index.pass(), last));
        }
        let format = self.format(index);
        // not reached: the index has the node, and the grammar its production
        let Some(item) = index.item(grammar, node) else {
            return Ok(());
        };
        for name in words.attributes.as_slice() {
            if !format.has_attribute(item, name) {
                return Err(no_attribute(alloc, &format, item, name));
            }
        }
        Ok(())
    }

    /// Returns the grammar, the plan and the pass by which the records of the tree file are read.
    fn format(self, index: &TreeIndex) -> FileFormat<'a> {
        FileFormat {
            grammar: self.translator.grammar(),
            plan: self.translator.plan(),
            pass: index.pass(),
        }
    }

    /// Writes a line with the path of the tree file and its pass, if the file was chosen in a
    /// folder. Fails if memory is refused.
    fn write_path(self, out: &mut String, pass: u16) -> Result<(), AllocError> {
        if !self.is_chosen {
            return Ok(());
        }
        let path = PlainText(self.path);
        let passes = self.translator.plan().assignment().passes();
        writeln!(out, "{path}  pass {pass} of {passes}")
    }
}

/// A tree file that is explained, with its index.
#[derive(Clone, Copy)]
struct IndexedRun<'a> {
    run: ExplanationRun<'a>,
    index: &'a TreeIndex,
}

impl<'a> IndexedRun<'a> {
    /// Returns the tree file with its grammar, and the beginning of the output: the line of
    /// `write_path` if the file was chosen in a folder, and otherwise an empty text. Fails if
    /// memory is refused.
    fn begin(self, alloc: Global) -> Result<(ExplainedTree<'a>, String), ShowFault> {
        let format = self.run.format(self.index);
        let tree = ExplainedTree::new(alloc, self.run.source, format, self.index)?;
        let mut text = String::new(alloc);
        self.run.write_path(&mut text, self.index.pass())?;
        Ok((tree, text))
    }

    /// Prints the rules in which errors arise, after the text of `begin`. Fails as `write_errors`
    /// does, with O2 if the output fails, and if memory is refused.
    fn print_errors<R: Print, D: Device>(
        self,
        rt: &R,
        alloc: Global,
        device: &mut D,
    ) -> Result<(), ShowFault> {
        let (tree, text) = self.begin(alloc)?;
        let mut out = io::writer(rt);
        write_text(&mut out, text.as_str()).map_err(|_| ShowFault::Write)?;
        write_errors(&tree, device, &mut out)
    }

    /// Prints the values of a node, after the text of `begin`. Makes the whole text before it
    /// prints anything. Fails as `write_node` does, with O2 if the output fails, and if memory is
    /// refused.
    fn print_node<R: Print, D: Device>(
        self,
        rt: &R,
        alloc: Global,
        request: &NodeRequest<'_>,
        device: &mut D,
    ) -> Result<(), ShowFault> {
        let (tree, mut text) = self.begin(alloc)?;
        tree.write_node(&mut text, request, device)?;
        let mut out = io::writer(rt);
        write_text(&mut out, text.as_str()).map_err(|_| ShowFault::Write)
    }
}

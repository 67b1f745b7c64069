//! Reads tree files and makes their indexes, for `show` and `explain`. Makes reports of failures.

use ag_grammar::limits::MAX_ATTRIBUTES;
use ag_grammar::{Grammar, Item};
use ag_value::NoMemory;
use aggen::{Fault, Translator};
use message_parts::display::PlainText;
use message_texts::trees::damage::{NEST_LESS, SPLIT};
use messages::FaultReport;
use passrun::RunFault;
use std::alloc::{AllocError, Global};
use tree_index::{FileFormat, NodePath, PathFault, TreeFault, TreeIndex};
use tree_text::{ItemName, ShowFault};
use treefile::Device;

/// What to do about a tree file that is damaged.
const AGAIN: &str = "make the file again by `aggen parse` or `aggen run --work` with this grammar";

/// Reads the tree file at `path`, which the device contains, from its end, and makes its index.
/// Fails with R1, P2 or P3 if the file is damaged or exceeds a limit, with D1 if a call of the
/// device fails, and if memory is refused.
pub fn read_index<D: Device>(
    alloc: Global,
    translator: &Translator,
    path: &str,
    device: &mut D,
) -> Result<TreeIndex, FaultReport> {
    match TreeIndex::read(alloc, translator.grammar(), translator.plan(), device) {
        Ok(index) => Ok(index),
        Err(fault) => Err(report_of_tree(alloc, ShowFault::Tree(fault), path)),
    }
}

/// Returns the report of a fault of reading the tree file at `path`, or of printing. The report
/// names the file if the fault is R1, P2, P3 or D1.
pub fn report_of_tree(alloc: Global, fault: ShowFault, path: &str) -> FaultReport {
    let fault = match fault {
        ShowFault::Tree(fault) => fault_of(fault),
        ShowFault::Write => Fault::Write,
        ShowFault::NoMemory => Fault::NoMemory,
    };
    let help = help_of(&fault);
    let mut report = FaultReport::of_file(alloc, fault, path);
    let written = report.parts.help.push_str(help);
    report.or_bare(written)
}

/// Returns what to do about a damaged tree file (R1), and about a tree that exceeds a limit (P2,
/// P3). For any other fault the text is empty.
fn help_of(fault: &Fault) -> &'static str {
    match fault {
        Fault::Run(RunFault::Damaged(_)) => AGAIN,
        Fault::Run(RunFault::TooDeep) => NEST_LESS,
        Fault::Run(RunFault::TooManyNodes) => SPLIT,
        _ => "",
    }
}

/// Returns the report of refused memory.
pub fn no_memory(alloc: Global) -> FaultReport {
    FaultReport::new(alloc, Fault::NoMemory)
}

/// Parses a path from the root, such as `/2/1`, and returns its child numbers, from 1. If `path` is
/// `None`, returns the path of the root, which has no numbers. Fails if the text is not a path, and
/// if memory is refused.
pub fn places_of(alloc: Global, path: Option<&str>) -> Result<Vec<u16>, FaultReport> {
    let Some(text) = path else {
        return Ok(Vec::new(alloc));
    };
    match NodePath::parse(alloc, text) {
        Ok(path) => path.places(alloc).map_err(|_: NoMemory| no_memory(alloc)),
        Err(PathFault::NoMemory) => Err(no_memory(alloc)),
        Err(PathFault::NotAPath) => Err(not_a_path(alloc, text)),
    }
}

/// Returns the report of a text that is not a path.
fn not_a_path(alloc: Global, text: &str) -> FaultReport {
    let mut report = FaultReport::new(alloc, Fault::Usage);
    let written = write!(
        report.parts.found,
        "expected a path such as `/`, `/2/1` or `/1*897/2`, found `{}`",
        PlainText(text)
    );
    report.or_bare(written)
}

/// Returns the report of a path that leads to no node. The report names the last node on the path
/// that is in the tree, and the number of this node's children.
pub fn no_node(alloc: Global, grammar: &Grammar, index: &TreeIndex, places: &[u16]) -> FaultReport {
    let mut report = FaultReport::new(alloc, Fault::Usage);
    let written = describe_missing(alloc, &mut report.parts.found, grammar, index, places);
    report.or_bare(written)
}

/// Writes the last node on a path that is in the tree, and the number of this node's children.
/// Writes nothing if memory for the node's path is refused. Fails if memory for `out` is refused.
fn describe_missing(
    alloc: Global,
    out: &mut String,
    grammar: &Grammar,
    index: &TreeIndex,
    places: &[u16],
) -> Result<(), AllocError> {
    let mut node = 0u32;
    let mut path = NodePath::root(alloc);
    for place in places {
        let Some(child) = index.child(grammar, node, *place) else {
            break;
        };
        node = child;
        if path.push(*place).is_err() {
            return Ok(());
        }
    }
    write!(
        out,
        "the tree has no node at this path, the node at `{path}` has "
    )?;
    match index.child_count(grammar, node) {
        0 => out.push_str("no children"),
        1 => out.push_str("1 child"),
        count => write!(out, "{count} children"),
    }
}

/// Returns the report that the tree file is of pass `pass`, and `--errors` needs a tree file of the
/// last pass, `last`.
pub fn not_last_pass(alloc: Global, pass: u16, last: u16) -> FaultReport {
    let mut report = FaultReport::new(alloc, Fault::Usage);
    let written = write!(
        report.parts.found,
        "`--errors` needs a tree file of the last pass, {last}, this one is of pass {pass}"
    );
    report.or_bare(written)
}

/// Returns the report that an item, a symbol or a class of tokens, has no attribute of this name.
/// The report lists the names of the item's attributes.
pub fn no_attribute(alloc: Global, format: &FileFormat<'_>, item: Item, name: &str) -> FaultReport {
    let mut report = FaultReport::new(alloc, Fault::Usage);
    let written = describe_attributes(&mut report.parts.found, format, item, name);
    report.or_bare(written)
}

/// Writes that an item does not have an attribute, and the names that it has, or that it has none.
fn describe_attributes(
    out: &mut String,
    format: &FileFormat<'_>,
    item: Item,
    name: &str,
) -> Result<(), AllocError> {
    let owner = ItemName {
        grammar: format.grammar,
        item,
    };
    write!(
        out,
        "{owner} has no attribute `{}`, it has",
        PlainText(name)
    )?;
    if format.attribute_name(item, 0).is_none() {
        return out.push_str(" none");
    }
    for attr in 0..MAX_ATTRIBUTES as u16 {
        if let Some(name) = format.attribute_name(item, attr) {
            write!(out, " {}", PlainText(name))?;
        }
    }
    Ok(())
}

/// Returns the program's fault for a fault of a tree file.
fn fault_of(fault: TreeFault) -> Fault {
    match fault {
        TreeFault::Damaged(at) => Fault::Run(RunFault::Damaged(at)),
        TreeFault::TooDeep => Fault::Run(RunFault::TooDeep),
        TreeFault::TooManyNodes => Fault::Run(RunFault::TooManyNodes),
        TreeFault::Device => Fault::Device,
        TreeFault::NoMemory => Fault::NoMemory,
    }
}

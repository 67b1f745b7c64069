//! The texts that fault types print, one for each variant. Those of `Fault` are asked for by other
//! rows.

use ag_job::ReadFault;
use ag_tokens::TokenFault;
use ag_value::{Items, NoMemory, Value, ValueFault};
use aggen::{BuildFault, Translator};
use agoutput::{ListingFault, OutFault, TextOutFault};
use backreader::TurnFault;
use command_line::CommandLineFault;
use message_parts::NameFault;
use origins::DecodeFault;
use pass_rows::RecordFault;
use passassign::{AssignFault, Stuck};
use planchecker::PlanFault;
use rows::words::Mistake;
use std::alloc::Global;
use std::error::Error;
use table_tree::PutFault;
use tree_index::{PathFault, TreeFault};
use tree_text::ShowFault;
use treefile::{DeviceFault, FileFault, FrameFault, WriteFault};

/// Returns the texts of faults, one on each line.
fn lines<E: Error>(alloc: Global, faults: &[E]) -> Result<String, Mistake> {
    let mut lines = String::new(alloc);
    for (number, fault) in faults.iter().enumerate() {
        if number > 0 {
            lines.push_str("\n")?;
        }
        lines.push_str(fault.to_string(alloc)?.as_str())?;
    }
    Ok(lines)
}

/// Returns the text of each variant of a fault type of values, devices and tree files.
fn texts_of_files(alloc: Global, kind: &str) -> Result<String, Mistake> {
    match kind {
        "NoMemory" => lines(alloc, &[NoMemory::NoMemory]),
        "ValueFault" => lines(alloc, &[ValueFault::Malformed, ValueFault::NoMemory]),
        "PutFault" => lines(
            alloc,
            &[PutFault::TooDeep, PutFault::TooHeavy, PutFault::NoMemory],
        ),
        "DeviceFault" => lines(alloc, &[DeviceFault::Failed, DeviceFault::NoMemory]),
        "WriteFault" => lines(alloc, &[WriteFault::Failed, WriteFault::NoMemory]),
        "FileFault" => lines(alloc, &[FileFault::File]),
        "FrameFault" => lines(
            alloc,
            &[
                FrameFault::NotATreeFile,
                FrameFault::Damaged(7),
                FrameFault::Device,
                FrameFault::NoMemory,
            ],
        ),
        "TurnFault" => lines(
            alloc,
            &[
                TurnFault::NotATreeFile,
                TurnFault::Damaged(7),
                TurnFault::NotATree(6),
                TurnFault::TooLarge,
                TurnFault::Device,
                TurnFault::NoMemory,
            ],
        ),
        "RecordFault" => lines(alloc, &[RecordFault::Damaged, RecordFault::NoMemory]),
        "DecodeFault" => lines(alloc, &[DecodeFault::Damaged, DecodeFault::NoMemory]),
        _ => Err(Mistake::Misspelt),
    }
}

/// Returns the text of each variant of a fault type of whole trees and of what is printed.
fn texts_of_trees(alloc: Global, kind: &str) -> Result<String, Mistake> {
    match kind {
        "TreeFault" => lines(
            alloc,
            &[
                TreeFault::Damaged(4),
                TreeFault::TooDeep,
                TreeFault::TooManyNodes,
                TreeFault::Device,
                TreeFault::NoMemory,
            ],
        ),
        "ShowFault" => lines(
            alloc,
            &[
                ShowFault::Tree(TreeFault::Damaged(4)),
                ShowFault::Write,
                ShowFault::NoMemory,
            ],
        ),
        "PathFault" => lines(alloc, &[PathFault::NotAPath, PathFault::NoMemory]),
        "OutFault" => lines(
            alloc,
            &[
                OutFault::NoText(Value::Num(1)),
                OutFault::NotATreeFile,
                OutFault::Damaged(9),
                OutFault::Device,
                OutFault::NoMemory,
            ],
        ),
        "TextOutFault" => lines(alloc, &[TextOutFault::Write]),
        "ListingFault" => lines(alloc, &[ListingFault::Write, ListingFault::NoMemory]),
        _ => texts_of_files(alloc, kind),
    }
}

/// Returns the text of each variant of a fault type.
pub fn fault_texts_answer(alloc: Global, kind: &str) -> Result<String, Mistake> {
    match kind {
        "TokenFault" => lines(alloc, &[TokenFault::Nothing, TokenFault::TooLarge]),
        "NameFault" => lines(
            alloc,
            &[
                NameFault::NoDot,
                NameFault::NoSymbol("T"),
                NameFault::NoAttribute(1, "a"),
            ],
        ),
        "ReadFault" => lines(alloc, &[ReadFault::Read, ReadFault::NoMemory]),
        "CommandLineFault" => lines(
            alloc,
            &[
                CommandLineFault::Usage,
                CommandLineFault::Write,
                CommandLineFault::NoMemory,
            ],
        ),
        "AssignFault" => lines(
            alloc,
            &[AssignFault::Stuck(no_strikes(alloc)), AssignFault::NoMemory],
        ),
        "PlanFault" => lines(
            alloc,
            &[
                PlanFault::Assignment(1, 2),
                PlanFault::Code(3, 4, 5),
                PlanFault::Shape,
            ],
        ),
        "BuildFault" => lines(alloc, &[BuildFault::NoMemory]),
        _ => texts_of_trees(alloc, kind),
    }
}

/// Returns a certificate of no attributes.
fn no_strikes(alloc: Global) -> Stuck {
    Stuck {
        set: Items::from_vec(Vec::new(alloc)),
        odd: Items::from_vec(Vec::new(alloc)),
        even: Items::from_vec(Vec::new(alloc)),
    }
}

/// Returns the text of the fault with which building a translator of a grammar fails.
pub fn build_fault_answer(alloc: Global, text: &str) -> Result<String, Mistake> {
    match Translator::build(alloc, text.as_bytes()) {
        Ok(_) => Err(Mistake::Unfit),
        Err(fault) => Ok(fault.to_string(alloc)?),
    }
}

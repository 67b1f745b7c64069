//! The requests of the commands that print tree files: `show` and `explain`.

use crate::commands::{GRAMMAR, TREE, misuse_of};
use crate::input::InputPath;
use crate::misuse::{check_once, check_tree};
use crate::tree_options::{AT, ATTRIBUTES, DEPTH, ERRORS, JSON, NODE, OF_SENTENCE, ONLY, WIDTH};
use crate::values::{input_of, number_of, value_of, values_of};
use clap::{ArgMatches, Error};
use std::alloc::Global;

/// The greatest number of characters of a value that is not a number, if `--width` is missing.
const DEFAULT_WIDTH: u32 = 60;

/// The message about a wrong value of `--depth`.
const WRONG_DEPTH: &str = "'--depth <N>' needs a number from 1";

/// The words that `show` takes.
#[derive(Drop)]
pub struct ShowWords<'a> {
    /// The grammar.
    pub grammar: InputPath<'a>,
    /// The tree file.
    pub tree: &'a str,
    /// The greatest level that is printed: 1 less than `--depth` or, if this is missing, a number
    /// above all levels. The level of the first node is 0.
    pub depth: u32,
    /// The path of the first node that is printed. If it is missing, the first node is the root.
    pub node: Option<&'a str>,
    /// The names of the attributes that are printed. If there are none, all are.
    pub only: Vec<&'a str>,
    /// The greatest number of characters of a value that is not a number; 0 for whole values.
    pub width: usize,
    /// Whether nodes are printed as JSON.
    pub json: bool,
}

/// The limits of what `show` prints, as their options name them.
#[derive(Clone, Copy)]
struct Limits {
    /// The number of levels, from 1.
    depth: u32,
    /// The number of characters of a value that is not a number; 0 for whole values.
    width: u32,
}

/// How the words name a node.
#[derive(Clone, Copy)]
pub enum NodeWords<'a> {
    /// The words name no node; the node is the root.
    None,
    /// By its path.
    Path(&'a str),
    /// By a place in the sentence.
    At(PlaceInSentence<'a>),
}

/// A place in a sentence.
#[derive(Clone, Copy)]
pub struct PlaceInSentence<'a> {
    /// The sentence.
    pub sentence: InputPath<'a>,
    /// The line, from 1.
    pub line: usize,
    /// The column in characters, from 1.
    pub column: usize,
}

/// The words that `explain` takes.
#[derive(Drop)]
pub struct ExplainWords<'a> {
    /// The grammar.
    pub grammar: InputPath<'a>,
    /// The path of the tree file, or of the folder with two of them.
    pub tree: &'a str,
    /// The node whose values are explained.
    pub node: NodeWords<'a>,
    /// The greatest number of characters of a value that is not a number; 0 for whole values.
    pub width: usize,
    /// Whether the rules of the whole tree in which errors arise are printed instead of a node.
    /// Then `node` and `attributes` have no effect on the output, but the command `explain` checks
    /// that the tree has such a node, and that this node has these attributes.
    pub errors: bool,
    /// The names of the node's attributes that are explained. If there are none, all are.
    pub attributes: Vec<&'a str>,
}

/// Returns the words that `show` takes. Fails with the error that clap prints if the tree file is
/// `-`, or if the value of `--depth` or `--width` is not a number in range. Fails with the error of
/// refused memory if memory is refused.
pub fn show_words<'a>(alloc: Global, matches: &ArgMatches<'a>) -> Result<ShowWords<'a>, Error> {
    let tree = value_of(matches, TREE);
    check_tree(alloc, "show", tree)?;
    let limits = limits_of(alloc, matches)?;
    Ok(ShowWords {
        grammar: input_of(matches, GRAMMAR),
        tree,
        depth: limits.depth.saturating_sub(1),
        node: matches.get_str(NODE),
        only: values_of(alloc, matches, ONLY)?,
        width: limits.width as usize,
        json: matches.get_flag(JSON),
    })
}

/// Returns the limits of `show`. Fails with the error that clap prints if the value of `--depth` or
/// `--width` is not a number in range.
fn limits_of(alloc: Global, matches: &ArgMatches<'_>) -> Result<Limits, Error> {
    let Some(depth) = number_of(matches, DEPTH, u32::MAX) else {
        return Err(misuse_of(alloc, "show", WRONG_DEPTH));
    };
    let width = width_of(alloc, matches, "show")?;
    if depth == 0 {
        return Err(misuse_of(alloc, "show", WRONG_DEPTH));
    }
    Ok(Limits { depth, width })
}

/// Returns the greatest number of characters of a value that the command `name` prints, 0 for whole
/// values. Fails with the error that clap prints if the value of `--width` is not a number below
/// 2^32.
fn width_of(alloc: Global, matches: &ArgMatches<'_>, name: &str) -> Result<u32, Error> {
    match number_of(matches, WIDTH, DEFAULT_WIDTH) {
        Some(width) => Ok(width),
        None => Err(misuse_of(alloc, name, "'--width <N>' needs a number")),
    }
}

/// Returns the words that `explain` takes. Fails with the error that clap prints if the tree file
/// is `-`, if the value of `--width` is not a number, if `--at` is not two numbers from 1, or if
/// both the grammar and the sentence are `-`. Fails with the error of refused memory if memory is
/// refused.
pub fn explain_words<'a>(
    alloc: Global,
    matches: &ArgMatches<'a>,
) -> Result<ExplainWords<'a>, Error> {
    let tree = value_of(matches, TREE);
    check_tree(alloc, "explain", tree)?;
    let node = node_words(alloc, matches)?;
    Ok(ExplainWords {
        grammar: input_of(matches, GRAMMAR),
        tree,
        node,
        width: width_of(alloc, matches, "explain")? as usize,
        errors: matches.get_flag(ERRORS),
        attributes: values_of(alloc, matches, ATTRIBUTES)?,
    })
}

/// Returns how the words name the node that `explain` explains. Fails as `place_of` does.
fn node_words<'a>(alloc: Global, matches: &ArgMatches<'a>) -> Result<NodeWords<'a>, Error> {
    match matches.get_str(AT) {
        Some(at) => Ok(NodeWords::At(place_of(alloc, matches, at)?)),
        None => Ok(path_words(matches)),
    }
}

/// Returns how the words name a node if `--at` is missing.
fn path_words<'a>(matches: &ArgMatches<'a>) -> NodeWords<'a> {
    match matches.get_str(NODE) {
        Some(path) => NodeWords::Path(path),
        None => NodeWords::None,
    }
}

/// Returns the place in the sentence that `at` names, the value of `--at`. Fails with the error
/// that clap prints if `at` is not two numbers from 1, or if both the grammar and the sentence are
/// `-`.
fn place_of<'a>(
    alloc: Global,
    matches: &ArgMatches<'a>,
    at: &str,
) -> Result<PlaceInSentence<'a>, Error> {
    let Some((line, column)) = numbers_in(at) else {
        return Err(misuse_of(
            alloc,
            "explain",
            "'--at <LINE:COLUMN>' needs two numbers from 1, such as 3:14",
        ));
    };
    let sentence = input_of(matches, OF_SENTENCE);
    check_once(alloc, "explain", [input_of(matches, GRAMMAR), sentence])?;
    Ok(PlaceInSentence {
        sentence,
        line,
        column,
    })
}

/// Returns the line and the column in a word such as `3:14`, both from 1. Returns `None` for any
/// other word.
fn numbers_in(word: &str) -> Option<(usize, usize)> {
    let (line, column) = word.split_once(':')?;
    let line = line.parse::<usize>().ok()?;
    let column = column.parse::<usize>().ok()?;
    if line == 0 || column == 0 {
        return None;
    }
    Some((line, column))
}

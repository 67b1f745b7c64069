//! Checks of words that clap accepts. Each fails with an error that clap prints with the command's
//! usage, or with the error of refused memory.

use crate::commands::misuse_of;
use crate::input::{InputPath, STANDARD};
use clap::Error;
use std::alloc::{AllocError, Global};

/// Fails if both inputs of a command are standard input, which can be read only once.
pub fn check_once(alloc: Global, command: &str, inputs: [InputPath<'_>; 2]) -> Result<(), Error> {
    match inputs {
        [InputPath::Standard, InputPath::Standard] => Err(misuse_of(
            alloc,
            command,
            "standard input ('-') can be read only once",
        )),
        _ => Ok(()),
    }
}

/// Fails if the path of a tree file is `-`. Only `eval`, which doesn't call this, reads a tree file
/// from standard input, and no command writes one to standard output.
pub fn check_tree(alloc: Global, command: &str, path: &str) -> Result<(), Error> {
    if path == STANDARD {
        return Err(misuse_of(
            alloc,
            command,
            "a tree file can't be '-' here; './-' is a file of this name",
        ));
    }
    Ok(())
}

/// Checks the sentences of `run` with `--out-dir`. Fails if a sentence is standard input, since the
/// file of its translation would have no name. Fails if the files of two sentences have the same
/// name (`file_name_of`), since the second translation would replace the first.
pub fn check_sentences(alloc: Global, paths: &[&str]) -> Result<(), Error> {
    if paths.contains(&STANDARD) {
        return Err(misuse_of(
            alloc,
            "run",
            "standard input ('-') has no name for a file in '--out-dir <DIR>'",
        ));
    }
    match doubled_name(alloc, paths)? {
        Some((first, second)) => Err(doubled_name_error(alloc, first, second)?),
        None => Ok(()),
    }
}

/// Returns the error for two sentences whose files have the same name. Fails if memory is refused.
fn doubled_name_error(alloc: Global, first: &str, second: &str) -> Result<Error, AllocError> {
    let name = file_name_of(second);
    let message = format!(in alloc;
        "the sentences '{first}' and '{second}' would both be translated to '{name}.out'"
    )?;
    Ok(misuse_of(alloc, "run", message.as_str()))
}

/// Returns two paths for which `file_name_of` returns the same name, if there are two. If there are
/// several such pairs, it can be any of them. Fails if memory is refused.
fn doubled_name<'a>(
    alloc: Global,
    paths: &[&'a str],
) -> Result<Option<(&'a str, &'a str)>, AllocError> {
    let mut sorted = Vec::from_slice(alloc, paths)?;
    sorted.sort_unstable_by(|a, b| file_name_of(a).cmp(file_name_of(b)));
    Ok(doubled_neighbour(sorted.as_slice()))
}

/// Returns the first two neighbours for which `file_name_of` returns the same name.
fn doubled_neighbour<'a>(paths: &[&'a str]) -> Option<(&'a str, &'a str)> {
    let mut last: Option<&str> = None;
    for path in paths {
        if let Some(before) = last {
            if file_name_of(before) == file_name_of(path) {
                return Some((before, *path));
            }
        }
        last = Some(*path);
    }
    None
}

/// Returns the name of a path's file in its folder: what follows the last slash, or the path if it
/// has none.
pub fn file_name_of(path: &str) -> &str {
    match path.rsplit_once('/') {
        Some((_, name)) => name,
        None => path,
    }
}

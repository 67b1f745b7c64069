//! The choice of a tree file in a folder of `--work`.

use ag_value::NoMemory;
use aggen::Fault;
use program_io::{FileId, WORK_FILES, open_tree, path_in};
use std::alloc::Global;
use std::rt::Files;
use tree_index::{TreeFault, pass_of_file};

/// The path of a tree file.
#[derive(Drop)]
pub enum TreePath<'a> {
    /// The command line named it.
    Given(&'a str),
    /// It was chosen in the folder that the command line named.
    Chosen(String),
}

impl<'a> TreePath<'a> {
    /// Returns `path` if it is not the path of a folder. Otherwise returns the path of one of the
    /// files a.agt and b.agt in the folder. Chooses the tree file of the greater pass. If only one
    /// is a tree file of version 2, chooses that one. If both are of the same pass, or neither is a
    /// tree file of version 2, chooses a.agt. Fails if memory is refused.
    pub fn find<R: Files>(rt: &R, alloc: Global, path: &'a str) -> Result<TreePath<'a>, NoMemory> {
        if FileId::of_folder(rt, path)?.is_none() {
            return Ok(TreePath::Given(path));
        }
        let [a, b] = WORK_FILES;
        let (a, b) = (path_in(alloc, path, a)?, path_in(alloc, path, b)?);
        if pass_rank(rt, alloc, a.as_str())? < pass_rank(rt, alloc, b.as_str())? {
            Ok(TreePath::Chosen(b))
        } else {
            Ok(TreePath::Chosen(a))
        }
    }

    /// Returns the path as a text.
    pub fn as_str(&self) -> &str {
        match self {
            TreePath::Given(path) => path,
            TreePath::Chosen(path) => path.as_str(),
        }
    }

    /// Returns whether the file was chosen in a folder.
    pub fn is_chosen(&self) -> bool {
        matches!(self, TreePath::Chosen(_))
    }
}

/// Returns one more than the pass of the tree file at `path`. Returns 0, which is less than for
/// pass 0, if the file can't be opened (`open_tree`) or read, or does not begin as a tree file of
/// version 2.
/// Fails if memory is refused.
fn pass_rank<R: Files>(rt: &R, alloc: Global, path: &str) -> Result<u32, NoMemory> {
    let mut tree = match open_tree(rt, alloc, path) {
        Ok(tree) => tree,
        Err(report) if matches!(report.fault, Fault::NoMemory) => return Err(NoMemory::NoMemory),
        Err(_) => return Ok(0),
    };
    match pass_of_file(alloc, &mut tree) {
        Ok(pass) => Ok(u32::from(pass) + 1),
        Err(TreeFault::NoMemory) => Err(NoMemory::NoMemory),
        Err(_) => Ok(0),
    }
}

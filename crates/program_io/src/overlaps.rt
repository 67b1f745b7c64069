//! Checks for files that a command would both read and write, or to which it would write both a
//! tree file and other output. The checks fail with `Fault::Usage`, as a misused command line
//! does, with a message and the file's name. They fail with NoMemory if memory is refused. Paths
//! are compared through links: a path that is a link counts as the file that it leads to.

ghost use Rattle.std.specs.Prelude.{IfErr};
ghost use Rattle.program_io.specs.Sessions.{IsInputFault};

use crate::paths::{folder_of, path_in};
use crate::same_file::FileId;
use crate::session::Session;
use crate::tree_paths::check_tree_path;
use ag_value::NoMemory;
use aggen::Fault;
use command_line::{InputPath, file_name_of};
use messages::FaultReport;
use std::rt::Files;

/// The names of the work files, the tree files of `--work`, in their folder.
pub const WORK_FILES: [&str; 2] = ["a.agt", "b.agt"];

/// The message about a grammar or a sentence that is a work file.
pub const INPUT_IS_WRITTEN: &str =
    "the passes would write a tree file to this input, name another folder for `--work`";

/// The message about the tree file of `eval` if it is a work file.
pub const TREE_IS_WRITTEN: &str =
    "the tree file would be written by the passes, name another folder for these";

/// The message about an output that is an input.
const OUTPUT_IS_READ: &str = "the output is one of the inputs, write it to another file";

/// The message about an output that is a work file.
const OUTPUT_IS_TREE: &str = "the output is a tree file of `--work`, write it to another file";

/// The message about a tree file that is standard output, to which the number of nodes is printed.
const TREE_IS_OUTPUT: &str =
    "the tree file is standard output, where the number of nodes is printed, write it to another file";

/// An input, and the message about it if it is a work file.
#[derive(Clone, Copy)]
pub struct CheckedInput<'a>(pub InputPath<'a>, pub &'a str);

impl<R: Files> Session<'_, R> {
    /// Checks the files of a command that writes one output: to the file at `output` or, if there
    /// is none, to standard output. Fails as `check_inputs` and `check_output` do.
    pub fn check_files(
        &self,
        inputs: &[CheckedInput<'_>],
        output: Option<&str>,
        work: Option<&str>,
    ) -> Result<(), FaultReport>
        ensures { IfErr result (λ report. IsInputFault report.fault) }
    {
        let ids = self.check_inputs(inputs, work)?;
        self.check_output(output, ids.as_slice(), work)
    }

    /// Returns the identities of the inputs that are regular files, sorted. If there is a folder
    /// `work`, fails if an input is one of the work files in it, and with F1 if one of these is a
    /// folder or a pipe. Fails if memory is refused.
    pub fn check_inputs(
        &self,
        inputs: &[CheckedInput<'_>],
        work: Option<&str>,
    ) -> Result<Vec<FileId>, FaultReport>
        ensures { IfErr result (λ report. IsInputFault report.fault) }
    {
        let written = self.ids_of_work_files(work)?;
        let mut ids = Vec::new(self.alloc);
        for CheckedInput(input, overlap) in inputs {
            if let Some(id) = self.granted(FileId::of_input(self.rt, *input))? {
                let is_written = written.as_slice().contains(&id);
                self.fail_if(is_written, overlap, input.name())?;
                self.granted(ids.push(id))?;
            }
        }
        ids.sort_unstable();
        Ok(ids)
    }

    /// Fails if the file at `output` is an input: `inputs` has the identities of these, sorted. If
    /// there is a folder `work`, also fails if the output is a work file in it, or standard output
    /// if there is no `output`. Fails if memory is refused.
    pub fn check_output(
        &self,
        output: Option<&str>,
        inputs: &[FileId],
        work: Option<&str>,
    ) -> Result<(), FaultReport>
        ensures { IfErr result (λ report. IsInputFault report.fault) }
    {
        let Some(path) = output else {
            return self.check_standard_output(work);
        };
        let is_read = match self.granted(FileId::at(self.rt, path))? {
            Some(id) => inputs.binary_search(&id).is_ok(),
            None => false,
        };
        self.fail_if(is_read, OUTPUT_IS_READ, path)?;
        let is_work = self.granted(self.is_work_file(path, work))?;
        self.fail_if(is_work, OUTPUT_IS_TREE, path)
    }

    /// Fails if the tree file at `path`, which `parse` or `upgrade` writes, is one of `inputs` or
    /// standard output, and if memory is refused. Also fails as `check_tree_path` does. (For
    /// `upgrade`, `inputs` does not contain the old tree file.)
    pub fn check_new_tree(&self, path: &str, inputs: &[CheckedInput<'_>]) -> Result<(), FaultReport>
        ensures { IfErr result (λ report. IsInputFault report.fault) }
    {
        self.check_files(inputs, Some(path), None)?;
        let is_standard = self.granted(self.is_standard_output(path))?;
        self.fail_if(is_standard, TREE_IS_OUTPUT, path)?;
        check_tree_path(self.rt, self.alloc, path)
    }

    /// Returns the identities of the work files in a folder that exist. Fails with F1 if one of
    /// them is a folder or a pipe, and if memory is refused.
    fn ids_of_work_files(&self, work: Option<&str>) -> Result<Vec<FileId>, FaultReport>
        ensures { IfErr result (λ report. IsInputFault report.fault) }
    {
        let mut ids = Vec::new(self.alloc);
        let Some(folder) = work else {
            return Ok(ids);
        };
        for name in WORK_FILES {
            let path = self.granted(path_in(self.alloc, folder, name))?;
            check_tree_path(self.rt, self.alloc, path.as_str())?;
            if let Some(id) = self.granted(FileId::at(self.rt, path.as_str()))? {
                self.granted(ids.push(id))?;
            }
        }
        Ok(ids)
    }

    /// Fails if standard output is one of the work files in a folder, and if memory is refused.
    fn check_standard_output(&self, work: Option<&str>) -> Result<(), FaultReport>
        ensures { IfErr result (λ report. IsInputFault report.fault) }
    {
        let Some(folder) = work else {
            return Ok(());
        };
        for name in WORK_FILES {
            let path = self.granted(path_in(self.alloc, folder, name))?;
            let is_standard = self.granted(self.is_standard_output(path.as_str()))?;
            self.fail_if(is_standard, OUTPUT_IS_TREE, path.as_str())?;
        }
        Ok(())
    }

    /// Returns whether a path leads to a regular file that is also standard output.
    fn is_standard_output(&self, path: &str) -> Result<bool, NoMemory> {
        let id = FileId::at(self.rt, path)?;
        Ok(id.is_some() && FileId::of_standard_output(self.rt)? == id)
    }

    /// Returns whether a path leads to a work file in a folder. The work file may not exist yet, so
    /// this is also true if the path's last part and folder are those of a work file.
    fn is_work_file(&self, path: &str, work: Option<&str>) -> Result<bool, NoMemory> {
        let Some(folder) = work else {
            return Ok(false);
        };
        let id = FileId::at(self.rt, path)?;
        let of_folder = FileId::of_folder(self.rt, folder)?;
        let is_in_folder = of_folder.is_some()
            && FileId::of_folder(self.rt, folder_of(path))? == of_folder;
        for name in WORK_FILES {
            let work = path_in(self.alloc, folder, name)?;
            let is_same = id.is_some() && FileId::at(self.rt, work.as_str())? == id;
            if is_same || is_in_folder && file_name_of(path) == name {
                return Ok(true);
            }
        }
        Ok(false)
    }

    /// Fails with the message `text` about the file at `path` if `is_overlap` is true.
    fn fail_if(&self, is_overlap: bool, text: &str, path: &str) -> Result<(), FaultReport>
        ensures { IfErr result (λ report. IsInputFault report.fault) }
    {
        if !is_overlap {
            return Ok(());
        }
        let mut report = FaultReport::new(self.alloc, Fault::Usage).with_file(self.alloc, path);
        let written = report.parts.found.push_str(text);
        Err(report.or_bare(written))
    }
}

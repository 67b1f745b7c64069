//! Parts of paths.

use std::alloc::{AllocError, Global};

/// Returns the path of a file in a folder. `name` is the file's name, or a path relative to the
/// folder. Fails if memory is refused.
pub fn path_in(alloc: Global, folder: &str, name: &str) -> Result<String, AllocError> {
    let separator = if folder.ends_with('/') { "" } else { "/" };
    format!(in alloc; "{folder}{separator}{name}")
}

/// Returns the folder of a path: what is before its last slash, `/` for a file in the root folder,
/// and `.` if it has no slash.
pub fn folder_of(path: &str) -> &str {
    match path.rsplit_once('/') {
        Some(("", _)) => "/",
        Some((folder, _)) => folder,
        None => ".",
    }
}

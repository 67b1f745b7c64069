//! Tree files: devices that store bytes, the frames of a file, writing records, and reading the
//! record before an offset. A *body* is the bytes of one node's record, and a *frame* is a body
//! followed by its length.
#![tactic(auto)]

mod body;
mod device;
mod file;
mod fuse;
mod laws;
mod layout;
mod memory;
mod reading;
mod shared;
mod tree_laws;
mod writing;

pub use body::{Kind, split_body};
pub use device::{Device, DeviceFault};
pub use file::{FileDevice, FileFault};
pub use fuse::FuseDevice;
pub use laws::{
    files_are_read_back, frames_are_read, headers_are_distinguished, last_is_read, records_fit,
};
pub use layout::{FileVersion, HEADER_BYTES, LEAST_BODY, LENGTH_BYTES, MAX_VALUES};
pub use memory::MemDevice;
pub use reading::{FrameFault, fits_before, last_body, pass_in, read_body};
pub use shared::SharedDevice;
pub use tree_laws::{
    files_have_one_tree, first_files_are_one, lists_determine_trees, passes_follow_files,
    reading_is_followed, records_are_read, records_determine_trees, refusals_are_true,
    reversed_postfix_is_prefix, root_is_last, trees_are_read_back, worked_files, worked_reading,
    worked_records,
};
pub use writing::{WriteFault, Writer};

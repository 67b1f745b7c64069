//! The translator over devices that have to be written out, such as those over files.
//!
//! `WorkFiles` has the two devices of a translation: over the files a.agt and b.agt of a folder, or
//! in memory. `WorkFiles::translate` and `WorkFiles::evaluate` return the translation after both
//! are written out. `parse_to_file` and `upgrade_file` write one tree file. `Watched` is a device
//! whose calls are watched.
//!
//! A `FileDevice` buffers bytes in memory before it writes them to its file. So contracts
//! distinguish the content of the device (`content_of`) from that of the file itself (`stored_of`).
//! A file is *written out* when `finish` has written the buffered bytes to it. Then both contents
//! are equal. A call that writes to a device over a file also writes out the file, unless D1 comes.
#![tactic(auto)]

mod trees;
mod watch;
mod work_device;
mod work_files;

pub use trees::{parse_to_file, upgrade_file};
pub use watch::{Silent, Watch, Watched};
pub use work_device::WorkDevice;
pub use work_files::{Translation, WorkFiles};

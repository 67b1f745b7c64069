//! How messages are printed on standard error, and how the progress of a translation is shown
//! there.
#![tactic(auto)]

mod progress;
mod progress_lines;
mod screen;

pub use progress::Progress;
pub use screen::Screen;

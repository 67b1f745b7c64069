//! Why a command line makes no request.

use thiserror::Error;

/// Why a command line makes no request.
#[derive(Clone, Copy, Debug, Error)]
pub enum CommandLineFault {
    /// The words are wrong. A message that says why was printed, if that was possible.
    #[error("usage: the arguments of the command line can't be read")]
    Usage,
    /// Help or the version could not be printed.
    #[error("O2 the output could not be written completely")]
    Write,
    /// The allocator refused memory.
    #[error("NoMemory a request for memory was refused")]
    NoMemory,
}

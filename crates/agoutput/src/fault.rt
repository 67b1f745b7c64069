//! The reasons why a text or a listing is not written completely.

ghost use Rattle.std.specs.Prelude.{◌≡◌};
ghost use Rattle.agoutput.specs.declared.fault.ListingFault.TheVariants as listing_fault;

use std::alloc::AllocError;
use thiserror::Error;

/// The reason why a text is not written completely.
#[derive(Clone, Copy, Debug, PartialEq, Eq, Error)]
pub enum TextOutFault {
    /// O2: a write failed, or took no byte. A prefix of the text, perhaps empty, was written.
    #[error("O2 the output could not be written completely")]
    Write,
}

/// The reason why a listing is not written completely.
#[derive(Clone, Copy, Debug, PartialEq, Eq, Error)]
pub enum ListingFault {
    /// O2: a write failed, or took no byte. A prefix of the listing, perhaps empty, was written.
    #[error("O2 the output could not be written completely")]
    Write,
    /// The allocator refused memory. Nothing was written.
    #[error("NoMemory a request for memory was refused")]
    NoMemory,
}

impl From<TextOutFault> for ListingFault {
    ghost from_gives = { λ _ e. e ≡ listing_fault.Write };

    fn from(_fault: TextOutFault) -> ListingFault {
        ListingFault::Write
    }
}

impl From<AllocError> for ListingFault {
    ghost from_gives = { λ _ e. e ≡ listing_fault.NoMemory };

    fn from(_error: AllocError) -> ListingFault {
        ListingFault::NoMemory
    }
}

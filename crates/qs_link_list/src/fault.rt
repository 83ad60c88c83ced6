// Why a text is no list of files.
ghost use Rattle.std.specs.Prelude.{◌≡◌};
ghost use Rattle.qs_link_list.specs.declared.fault.ListFault.TheVariants as faults;

use std::alloc::{AllocError, AllocFailed};
use thiserror::Error;

/// Why a text is no list of files.
#[derive(Clone, Copy, Debug, Error)]
pub enum ListFault {
    /// No memory was found.
    #[error("out of memory")]
    NoMemory,
    /// The bytes before this one begin a list, and with it they begin none; or the text ends here
    /// and is none.
    #[error("bad list at {0}")]
    BadByte(u32),
}

impl From<AllocError> for ListFault {
    ghost from_gives = { λ _ answer. answer ≡ faults.NoMemory };

    fn from(_fault: AllocError) -> ListFault {
        ListFault::NoMemory
    }
}

impl<T: Drop> From<AllocFailed<T>> for ListFault {
    ghost from_gives = { λ _ answer. answer ≡ faults.NoMemory };

    fn from(_fault: AllocFailed<T>) -> ListFault {
        ListFault::NoMemory
    }
}

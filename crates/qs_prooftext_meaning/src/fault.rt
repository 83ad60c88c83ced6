// Why a text is no proofs.
ghost use Rattle.std.specs.Prelude.{◌≡◌};
ghost use Rattle.qs_prooftext_meaning.specs.declared.fault.TextFault.TheVariants as fault;

use qs_base::NoMemory;
use std::alloc::{AllocError, AllocFailed};
use thiserror::Error;

/// Why a text is no proofs of a unit: the first fault, with the number of the byte where it stands.
/// A fault of lists and atoms anywhere in the text comes before all others.
#[derive(Clone, Copy, Debug, Error)]
pub enum TextFault {
    /// No memory was found.
    #[error("out of memory")]
    NoMemory,
    /// This byte begins nothing, or it is the first that does not fit the symbol in which it
    /// stands.
    #[error("bad byte at {0}")]
    BadByte(u32),
    /// This `)` closes no list, or the text ends here in a list.
    #[error("unbalanced at {0}")]
    Unbalanced(u32),
    /// This list or atom has no meaning in its place.
    #[error("unknown form at {0}")]
    UnknownForm(u32),
    /// The atom that begins here, with a digit or `-`, is no number from -2^63 to 2^63 - 1.
    #[error("bad number at {0}")]
    BadNumber(u32),
    /// This `(` stands in 1,024 lists.
    #[error("too deep at {0}")]
    TooDeep(u32),
    /// This list defines a name for the second time or the name of an open function, or it is the
    /// second of its function.
    #[error("duplicate at {0}")]
    Duplicate(u32),
    /// This list names a function, or the cost of one, that has no body in the unit.
    #[error("no such function at {0}")]
    NoSuchFunction(u32),
}

impl From<NoMemory> for TextFault {
    ghost from_gives = { λ _ answer. answer ≡ fault.NoMemory };

    fn from(_fault: NoMemory) -> TextFault {
        TextFault::NoMemory
    }
}

impl From<AllocError> for TextFault {
    ghost from_gives = { λ _ answer. answer ≡ fault.NoMemory };

    fn from(_fault: AllocError) -> TextFault {
        TextFault::NoMemory
    }
}

impl<T: Drop> From<AllocFailed<T>> for TextFault {
    ghost from_gives = { λ _ answer. answer ≡ fault.NoMemory };

    fn from(_fault: AllocFailed<T>) -> TextFault {
        TextFault::NoMemory
    }
}

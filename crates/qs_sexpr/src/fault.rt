// Why a text is no lists and atoms.
ghost use Rattle.std.specs.Prelude.{◌≡◌};
ghost use Rattle.qs_sexpr.specs.declared.fault.SexprFault.TheVariants as fault;

use qs_base::NoMemory;
use std::alloc::{AllocError, AllocFailed};
use thiserror::Error;

/// Why a text is no lists and atoms: the first fault, with the number of the byte where it stands.
#[derive(Clone, Copy, Debug, Error)]
pub enum SexprFault {
    /// No memory was found.
    #[error("out of memory")]
    NoMemory,
    /// This byte begins nothing, or it is the first that does not fit the symbol in which it
    /// stands.
    #[error("bad byte at {0}")]
    BadByte(u32),
    /// This `)` closes no list, or the text ends here in a list.
    #[error("unbalanced at {0}")]
    Unbalanced(u32),
    /// The atom that begins here, with a digit or `-`, is no number from -2^63 to 2^63 - 1.
    #[error("bad number at {0}")]
    BadNumber(u32),
    /// This `(` stands in 1,024 lists.
    #[error("too deep at {0}")]
    TooDeep(u32),
}

impl From<NoMemory> for SexprFault {
    ghost from_gives = { λ _ answer. answer ≡ fault.NoMemory };

    fn from(_fault: NoMemory) -> SexprFault {
        SexprFault::NoMemory
    }
}

impl From<AllocError> for SexprFault {
    ghost from_gives = { λ _ answer. answer ≡ fault.NoMemory };

    fn from(_fault: AllocError) -> SexprFault {
        SexprFault::NoMemory
    }
}

impl<T: Drop> From<AllocFailed<T>> for SexprFault {
    ghost from_gives = { λ _ answer. answer ≡ fault.NoMemory };

    fn from(_fault: AllocFailed<T>) -> SexprFault {
        SexprFault::NoMemory
    }
}

// Why no machine code is selected.
use qs_base::NoMemory;
use std::alloc::{AllocError, AllocFailed};
use thiserror::Error;

/// Why no machine code is selected.
#[derive(Clone, Copy, Debug, Error)]
pub enum SelectionFault {
    /// No memory was found.
    #[error("out of memory")]
    NoMemory,
    /// A function has more than sixteen parameters, main more than eight, or a call more than
    /// sixteen arguments.
    #[error("too many arguments")]
    TooManyArguments,
    /// A place is in a register from 32 on.
    #[error("a place is no register")]
    NoRegister,
    /// A frame has more than 2^28 bytes.
    #[error("a frame is too large")]
    FrameTooLarge,
    /// The unit's data, each rounded up to a multiple of 4, have more than 16,777,216 bytes.
    #[error("the data are too large")]
    DataTooLarge,
}

impl From<NoMemory> for SelectionFault {
    ghost use Rattle.std.specs.Prelude.{◌≡◌};
    ghost use Rattle.qs_emit_selection.specs.declared.fault.SelectionFault.TheVariants.{NoMemory};

    ghost from_gives = { λ _ fault. fault ≡ NoMemory };

    fn from(_fault: NoMemory) -> SelectionFault {
        SelectionFault::NoMemory
    }
}

impl From<AllocError> for SelectionFault {
    ghost use Rattle.std.specs.Prelude.{◌≡◌};
    ghost use Rattle.qs_emit_selection.specs.declared.fault.SelectionFault.TheVariants.{NoMemory};

    ghost from_gives = { λ _ fault. fault ≡ NoMemory };

    fn from(_fault: AllocError) -> SelectionFault {
        SelectionFault::NoMemory
    }
}

impl<T: Drop> From<AllocFailed<T>> for SelectionFault {
    ghost use Rattle.std.specs.Prelude.{◌≡◌};
    ghost use Rattle.qs_emit_selection.specs.declared.fault.SelectionFault.TheVariants.{NoMemory};

    ghost from_gives = { λ _ fault. fault ≡ NoMemory };

    fn from(_fault: AllocFailed<T>) -> SelectionFault {
        SelectionFault::NoMemory
    }
}

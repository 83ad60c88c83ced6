// Why a unit of core has no image.
use qs_base::NoMemory;
use qs_emit_selection::SelectionFault;
use std::alloc::{AllocError, AllocFailed};
use thiserror::Error;

/// Why a unit of core has no image. The limits are those of qs_image.
#[derive(Clone, Copy, Debug, Error)]
pub enum BuildFault {
    /// No memory was found.
    #[error("out of memory")]
    NoMemory,
    /// The unit has more than `MOST_FUNCTIONS` functions.
    #[error("more than 512 functions")]
    TooManyFunctions,
    /// The names of the functions have more than `MOST_NAME_BYTES` bytes together.
    #[error("the names of the functions are too long")]
    NamesTooLong,
    /// A function has more than 16 parameters, or `main` more than 8.
    #[error("too many parameters")]
    TooManyParameters,
    /// A frame has more than `LARGEST_COST` bytes.
    #[error("a frame is too large")]
    FrameTooLarge,
    /// The data have more than `MOST_DATA_BYTES` bytes.
    #[error("the data are too large")]
    DataTooLarge,
    /// The code has `MOST_CODE_WORDS` words or more.
    #[error("the code is too long")]
    CodeTooLong,
}

impl From<NoMemory> for BuildFault {
    ghost use Rattle.std.specs.Prelude.{◌≡◌};
    ghost use Rattle.qs_compile.specs.declared.fault.BuildFault.TheVariants.{NoMemory};

    ghost from_gives = { λ _ fault. fault ≡ NoMemory };

    fn from(_fault: NoMemory) -> BuildFault {
        BuildFault::NoMemory
    }
}

impl From<AllocError> for BuildFault {
    ghost use Rattle.std.specs.Prelude.{◌≡◌};
    ghost use Rattle.qs_compile.specs.declared.fault.BuildFault.TheVariants.{NoMemory};

    ghost from_gives = { λ _ fault. fault ≡ NoMemory };

    fn from(_fault: AllocError) -> BuildFault {
        BuildFault::NoMemory
    }
}

impl<T: Drop> From<AllocFailed<T>> for BuildFault {
    ghost use Rattle.std.specs.Prelude.{◌≡◌};
    ghost use Rattle.qs_compile.specs.declared.fault.BuildFault.TheVariants.{NoMemory};

    ghost from_gives = { λ _ fault. fault ≡ NoMemory };

    fn from(_fault: AllocFailed<T>) -> BuildFault {
        BuildFault::NoMemory
    }
}

impl From<SelectionFault> for BuildFault {
    ghost use Rattle.std.specs.Prelude.{◌≡◌};
    ghost use Rattle.qs_compile.specs.Faults.{fault_of};

    ghost from_gives = { λ selection fault. fault ≡ fault_of selection };

    fn from(fault: SelectionFault) -> BuildFault {
        match fault {
            SelectionFault::NoMemory => BuildFault::NoMemory,
            SelectionFault::TooManyArguments => BuildFault::TooManyParameters,
            SelectionFault::NoRegister => BuildFault::NoMemory,
            SelectionFault::FrameTooLarge => BuildFault::FrameTooLarge,
            SelectionFault::DataTooLarge => BuildFault::DataTooLarge,
        }
    }
}

// Why items have no words.
use qs_base::NoMemory;
use std::alloc::{AllocError, AllocFailed};
use thiserror::Error;

/// Why items have no words.
#[derive(Clone, Copy, Debug, Error)]
pub enum AssemblyFault {
    /// No memory was found.
    #[error("out of memory")]
    NoMemory,
    /// A label that is gone to stands nowhere, or is further away than a jump goes (-2^20 to 2^20 -
    /// 2 bytes); or a label stands at two addresses.
    #[error("a label is out of reach")]
    BadLabel,
}

impl From<NoMemory> for AssemblyFault {
    ghost use Rattle.std.specs.Prelude.{◌≡◌};
    ghost use Rattle.qs_asm.specs.declared.fault.AssemblyFault.TheVariants.{NoMemory};

    ghost from_gives = { λ _ fault. fault ≡ NoMemory };

    fn from(_fault: NoMemory) -> AssemblyFault {
        AssemblyFault::NoMemory
    }
}

impl From<AllocError> for AssemblyFault {
    ghost use Rattle.std.specs.Prelude.{◌≡◌};
    ghost use Rattle.qs_asm.specs.declared.fault.AssemblyFault.TheVariants.{NoMemory};

    ghost from_gives = { λ _ fault. fault ≡ NoMemory };

    fn from(_fault: AllocError) -> AssemblyFault {
        AssemblyFault::NoMemory
    }
}

impl<T: Drop> From<AllocFailed<T>> for AssemblyFault {
    ghost use Rattle.std.specs.Prelude.{◌≡◌};
    ghost use Rattle.qs_asm.specs.declared.fault.AssemblyFault.TheVariants.{NoMemory};

    ghost from_gives = { λ _ fault. fault ≡ NoMemory };

    fn from(_fault: AllocFailed<T>) -> AssemblyFault {
        AssemblyFault::NoMemory
    }
}

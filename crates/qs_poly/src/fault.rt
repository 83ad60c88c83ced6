// Why an operation has no polynomial.
use qs_base::NoMemory;
use std::alloc::{AllocError, AllocFailed};
use thiserror::Error;

/// Why an operation on polynomials gives none. The first of the limits that the true result passes.
#[derive(Clone, Copy, Debug, Error)]
pub enum PolyFault {
    /// No memory was found.
    #[error("out of memory")]
    NoMemory,
    /// A coefficient is below -2^56 or above 2^56.
    #[error("a coefficient is too large")]
    Wide,
    /// There are more than 64 terms.
    #[error("too many terms")]
    ManyTerms,
    /// A term has more than four atoms.
    #[error("the degree is too high")]
    HighDegree,
}

impl From<NoMemory> for PolyFault {
    ghost use Rattle.std.specs.Prelude.{◌≡◌};
    ghost use Rattle.qs_poly.specs.declared.fault.PolyFault.TheVariants.{NoMemory};

    ghost from_gives = { λ _ fault. fault ≡ NoMemory };

    fn from(_fault: NoMemory) -> PolyFault {
        PolyFault::NoMemory
    }
}

impl From<AllocError> for PolyFault {
    ghost use Rattle.std.specs.Prelude.{◌≡◌};
    ghost use Rattle.qs_poly.specs.declared.fault.PolyFault.TheVariants.{NoMemory};

    ghost from_gives = { λ _ fault. fault ≡ NoMemory };

    fn from(_fault: AllocError) -> PolyFault {
        PolyFault::NoMemory
    }
}

impl<T: Drop> From<AllocFailed<T>> for PolyFault {
    ghost use Rattle.std.specs.Prelude.{◌≡◌};
    ghost use Rattle.qs_poly.specs.declared.fault.PolyFault.TheVariants.{NoMemory};

    ghost from_gives = { λ _ fault. fault ≡ NoMemory };

    fn from(_fault: AllocFailed<T>) -> PolyFault {
        PolyFault::NoMemory
    }
}

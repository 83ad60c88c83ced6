// Why a node of a certificate fails.
use qs_base::NoMemory;
use qs_poly::PolyFault;
use std::alloc::{AllocError, AllocFailed};

/// A limit of polynomials.
#[derive(Clone, Copy, Debug)]
pub enum Limit {
    /// Coefficients are from -2^56 to 2^56.
    Coefficient,
    /// There are at most 64 terms.
    Terms,
    /// The degree is at most 4.
    Degree,
}

impl Limit {
    ghost use Rattle.std.specs.Prelude.{◌≡◌};
    ghost use Rattle.qs_entail.specs.Said.{limit_number};

    /// The number of the limit, from 1 to 3.
    pub fn number(self) -> u32
        ensures { result ≡ limit_number self }
    {
        match self {
            Limit::Coefficient => 1,
            Limit::Terms => 2,
            Limit::Degree => 3,
        }
    }
}

/// Why a step gives nothing.
#[derive(Clone, Copy)]
pub enum Stop {
    /// No memory was found.
    NoMemory,
    /// The side condition of the node's rule fails.
    Breaks,
    /// A polynomial passes a limit.
    Passes(Limit),
}

impl From<NoMemory> for Stop {
    ghost use Rattle.std.specs.Prelude.{◌≡◌};
    ghost use Rattle.qs_entail.specs.declared.stop.Stop.TheVariants.{NoMemory};

    ghost from_gives = { λ _ stop. stop ≡ NoMemory };

    fn from(_fault: NoMemory) -> Stop {
        Stop::NoMemory
    }
}

impl From<AllocError> for Stop {
    ghost use Rattle.std.specs.Prelude.{◌≡◌};
    ghost use Rattle.qs_entail.specs.declared.stop.Stop.TheVariants.{NoMemory};

    ghost from_gives = { λ _ stop. stop ≡ NoMemory };

    fn from(_fault: AllocError) -> Stop {
        Stop::NoMemory
    }
}

impl<T: Drop> From<AllocFailed<T>> for Stop {
    ghost use Rattle.std.specs.Prelude.{◌≡◌};
    ghost use Rattle.qs_entail.specs.declared.stop.Stop.TheVariants.{NoMemory};

    ghost from_gives = { λ _ stop. stop ≡ NoMemory };

    fn from(_fault: AllocFailed<T>) -> Stop {
        Stop::NoMemory
    }
}

impl From<PolyFault> for Stop {
    ghost use Rattle.std.specs.Prelude.{◌≡◌};
    ghost use Rattle.qs_entail.specs.Answers.{stop_of};

    ghost from_gives = { λ fault stop. stop ≡ stop_of fault };

    fn from(fault: PolyFault) -> Stop {
        match fault {
            PolyFault::NoMemory => Stop::NoMemory,
            PolyFault::Wide => Stop::Passes(Limit::Coefficient),
            PolyFault::ManyTerms => Stop::Passes(Limit::Terms),
            PolyFault::HighDegree => Stop::Passes(Limit::Degree),
        }
    }
}

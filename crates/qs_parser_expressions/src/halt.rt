// Why the parser stops.
ghost use Rattle.std.specs.Prelude.{◌≡◌};
ghost use Rattle.qs_parser_expressions.specs.declared.halt.Halt.TheVariants.{NoMemory};

use std::alloc::{AllocError, AllocFailed};

/// Why tokens are not read as a form, with how many tokens are left at its place, the token there
/// among them.
#[derive(Clone, Copy)]
pub enum Halt {
    /// No memory was found.
    NoMemory,
    /// A token, or the end, that no reading goes on with.
    Unexpected(usize),
    /// A token at which each reading is higher than the limit.
    TooDeep(usize),
}

impl From<AllocError> for Halt {
    ghost from_gives = { λ _ e. e ≡ NoMemory };

    fn from(_fault: AllocError) -> Halt {
        Halt::NoMemory
    }
}

impl<T: Drop> From<AllocFailed<T>> for Halt {
    ghost from_gives = { λ _ e. e ≡ NoMemory };

    fn from(_fault: AllocFailed<T>) -> Halt {
        Halt::NoMemory
    }
}

impl From<qs_base::NoMemory> for Halt {
    ghost from_gives = { λ _ e. e ≡ NoMemory };

    fn from(_fault: qs_base::NoMemory) -> Halt {
        Halt::NoMemory
    }
}

// Why functions have no order.
ghost use Rattle.std.specs.Prelude.{◌≡◌};
ghost use Rattle.qs_callgraph.specs.declared.fault.CycleFault.TheVariants as fault;

use qs_base::{FnId, NoMemory};
use thiserror::Error;

/// Why functions have no order in which callees stand before callers.
#[derive(Debug, Drop, Error)]
pub enum CycleFault {
    /// No memory was found.
    #[error("out of memory")]
    NoMemory,
    /// These functions, none with a specification, call each other in turn: each the next, and the
    /// last the first.
    #[error("functions without a specification call each other in turn")]
    Cycle(Vec<FnId>),
}

impl From<NoMemory> for CycleFault {
    ghost from_gives = { λ _ answer. answer ≡ fault.NoMemory };

    fn from(_fault: NoMemory) -> CycleFault {
        CycleFault::NoMemory
    }
}

// Why the walk over a certificate stops.
ghost use Rattle.std.specs.Prelude.{◌≡◌};
ghost use Rattle.qs_entail.specs.declared.failed.Failed.TheVariants as failed;
ghost use Rattle.qs_entail.specs.Walking.{failure_of, settled};

use crate::fault::Rule;
use crate::stop::{Limit, Stop};
use qs_base::NoMemory;
use std::alloc::AllocFailed;

/// Why the walk stops; its path tells where.
#[derive(Clone, Copy)]
pub enum Failed {
    /// No memory was found.
    NoMemory,
    /// The side condition of this rule fails.
    Step(Rule),
    /// A polynomial passes this limit.
    Limit(Limit),
}

impl From<NoMemory> for Failed {
    ghost from_gives = { λ _ answer. answer ≡ failed.NoMemory };

    fn from(_fault: NoMemory) -> Failed {
        Failed::NoMemory
    }
}

impl<T: Drop> From<AllocFailed<T>> for Failed {
    ghost from_gives = { λ _ answer. answer ≡ failed.NoMemory };

    fn from(_fault: AllocFailed<T>) -> Failed {
        Failed::NoMemory
    }
}

/// A step of this rule gave nothing.
pub fn failure(rule: Rule, stop: Stop) -> Failed
    ensures { result ≡ failure_of rule stop }
{
    match stop {
        Stop::NoMemory => Failed::NoMemory,
        Stop::Breaks => Failed::Step(rule),
        Stop::Passes(limit) => Failed::Limit(limit),
    }
}

/// What a step of this rule gave.
pub fn settle<T>(rule: Rule, outcome: Result<T, Stop>) -> Result<T, Failed>
    ensures { result ≡ settled rule outcome }
{
    match outcome {
        Ok(given) => Ok(given),
        Err(stop) => Err(failure(rule, stop)),
    }
}

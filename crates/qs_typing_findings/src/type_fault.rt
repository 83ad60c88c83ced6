// Why a unit is refused.
use qs_base::NoMemory;
use qs_types::{LimitKind, Rule};
use thiserror::Error;

/// Why a unit is refused, in this order: a limit of nodes, functions or parameters, a rule, no
/// main, a function without a body, a limit of globals or locals.
#[derive(Clone, Copy, Debug, Error)]
pub enum TypeFault {
    /// The node with this number breaks this rule: no node before it breaks one, nor it one before
    /// this.
    #[error("node {0} breaks a rule")]
    Rule(u32, Rule),
    /// What is counted first passes its limit at the node with this number.
    #[error("a limit is passed at node {1}")]
    Limit(LimitKind, u32),
    /// No function `main` has a body (C11 5.1.2.2.1).
    #[error("no main")]
    NoMain,
    /// The function whose first declaration is the node with this number is called and has no body
    /// (C11 6.9p5).
    #[error("the function at node {0} is called and has no body")]
    Undefined(u32),
    /// No memory was found.
    #[error("out of memory")]
    NoMemory,
}

impl From<NoMemory> for TypeFault {
    ghost use Rattle.qs_typing_findings.specs.declared.type_fault.TypeFault.TheVariants as faults;
    ghost use Rattle.std.specs.Prelude.{◌≡◌};

    ghost from_gives = { λ e r. r ≡ faults.NoMemory };

    fn from(_fault: NoMemory) -> TypeFault {
        TypeFault::NoMemory
    }
}

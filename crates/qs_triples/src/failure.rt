// Why a body isn't derived, while the walk over it goes on.

use qs_assert::Var;
use qs_base::{FnId, NoMemory};
use qs_entail::{Limit, Rule};

/// What is wrong at a node.
#[derive(Drop)]
pub enum Cause {
    /// it is no node for its statement
    Shape,
    /// the variable may not be mentioned there; or it is one of this function, which is called
    /// there, is needed and has no term
    Mentions(Option<FnId>, Var),
    /// at this path of its certificate this rule's side condition fails
    Step(Vec<usize>, Rule),
    /// at this path of its certificate a polynomial passes this limit
    Limit(Vec<usize>, Limit),
    /// the function that is called has no specification
    NoSpec(FnId),
}

/// Why the walk ends. The path begins at the node and ends below the body.
#[derive(Drop)]
pub enum Failure {
    /// no memory was found
    NoMemory,
    /// a node at this path has this fault
    Fault(Vec<usize>, Cause),
}

impl From<NoMemory> for Failure {
    ghost use Rattle.std.specs.Prelude.{◌≡◌};
    ghost use Rattle.qs_triples.specs.declared.failure.Failure.TheVariants.{NoMemory};

    ghost from_gives = { λ _ failure. failure ≡ NoMemory };

    fn from(_fault: NoMemory) -> Failure {
        Failure::NoMemory
    }
}

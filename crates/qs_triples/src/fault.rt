// What is wrong with an entry.

use qs_assert::Var;
use qs_base::{FnId, NoMemory};
use qs_entail::CertFault;
use thiserror::Error;

/// Where an assertion stands. A path has the numbers of the parts of statements, from 0, from that
/// of the body on.
#[derive(Debug, Drop)]
pub enum Place {
    /// it is the precondition
    Precondition,
    /// it is the postcondition
    Postcondition,
    /// it is at the node of the statement with this path
    Node(Vec<usize>),
}

/// Why an entry isn't derived. The path of a node is that of its statement.
#[derive(Debug, Drop, Error)]
pub enum DerivFault {
    /// No memory was found.
    #[error("out of memory")]
    NoMemory,
    /// The node is none for its statement.
    #[error("a node of a derivation doesn't fit its statement")]
    Shape(Vec<usize>),
    /// The variable may not be mentioned there; or it is one of this function, which is called
    /// there, is needed and has no term.
    #[error("an assertion mentions a variable that it may not")]
    Mentions(Place, Option<FnId>, Var),
    /// The node's certificate has this fault.
    #[error("a certificate of a derivation is wrong")]
    Cert(Vec<usize>, CertFault),
    /// The function that is called has no specification.
    #[error("a called function has no specification")]
    NoSpec(Vec<usize>, FnId),
    /// The certificate of the precondition has this fault.
    #[error("the certificate of a precondition is wrong")]
    Entry(CertFault),
    /// The definition with this number has a name that isn't defined earlier.
    #[error("a definition has a name that isn't defined earlier")]
    BadOrder(usize),
}

impl From<NoMemory> for DerivFault {
    ghost use Rattle.std.specs.Prelude.{◌≡◌};
    ghost use Rattle.qs_triples.specs.declared.fault.DerivFault.TheVariants.{NoMemory};

    ghost from_gives = { λ _ fault. fault ≡ NoMemory };

    fn from(_fault: NoMemory) -> DerivFault {
        DerivFault::NoMemory
    }
}

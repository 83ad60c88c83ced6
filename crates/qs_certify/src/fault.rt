// Why a unit's proofs can't be certified.
ghost use Rattle.std.specs.Prelude.{◌≡◌};
ghost use Rattle.qs_certify.specs.declared.fault.CertifyFault.TheVariants as fault;

use qs_base::{FnId, Name, NoMemory};
use qs_prooftext_meaning::TextFault;
use qs_triples::DerivFault;
use thiserror::Error;

/// Why a unit's proofs can't be certified: the first cause in the order of search.
#[derive(Debug, Drop, Error)]
pub enum CertifyFault {
    /// No memory was found.
    #[error("out of memory")]
    NoMemory,
    /// The text of the proof file is no proofs of the unit: its first fault.
    #[error("the proof file can't be read")]
    Text(TextFault),
    /// These functions, none with an entry in the file, call each other in turn: each the next, and
    /// the last the first.
    #[error("recursion without a derivation")]
    Cycle(Vec<FnId>),
    /// The definition of this name is the first that mentions a name that isn't defined earlier.
    #[error("a definition mentions a name that isn't defined earlier")]
    Order(Name),
    /// The entry of this function is the first of the file that isn't derived, and this is its
    /// first fault.
    #[error("an entry of the proof file isn't derived")]
    Entry(FnId, DerivFault),
}

impl From<NoMemory> for CertifyFault {
    ghost from_gives = { λ _ answer. answer ≡ fault.NoMemory };

    fn from(_fault: NoMemory) -> CertifyFault {
        CertifyFault::NoMemory
    }
}

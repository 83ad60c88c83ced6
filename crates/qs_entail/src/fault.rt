// What is wrong with a certificate.
use crate::Limit;
use qs_base::NoMemory;
use thiserror::Error;

/// The rule of a node of a certificate.
#[derive(Clone, Copy, Debug)]
pub enum Rule {
    /// The two are the same tree.
    Same,
    /// By an assertion in between.
    Via,
    /// By a member of a greatest.
    Pick,
    /// All members of a greatest.
    All,
    /// Summand by summand.
    Parts,
    /// With the condition of a guard.
    Assume,
    /// A guard goes, since its condition holds.
    DropGuard,
    /// With a condition, and with its negation.
    Split,
    /// The conditions contradict each other.
    Contradict,
    /// The difference is at least 0.
    Arithmetic,
    /// By a definition.
    ByDefinition,
    /// With a fact.
    Fact,
}

impl Rule {
    ghost use Rattle.std.specs.Prelude.{◌≡◌};
    ghost use Rattle.qs_entail.specs.Said.{rule_number};

    /// The number of the rule, from 1 to 12.
    pub fn number(self) -> u32
        ensures { result ≡ rule_number self }
    {
        match self {
            Rule::Same => 1,
            Rule::Via => 2,
            Rule::Pick => 3,
            Rule::All => 4,
            Rule::Parts => 5,
            Rule::Assume => 6,
            Rule::DropGuard => 7,
            Rule::Split => 8,
            Rule::Contradict => 9,
            Rule::Arithmetic => 10,
            Rule::ByDefinition => 11,
            Rule::Fact => 12,
        }
    }
}

/// Why a certificate does not show what it is to show. A path has the numbers of parts, from 0,
/// from the root to the first node that fails, a node being before its parts.
#[derive(Debug, Drop, Error)]
pub enum CertFault {
    /// No memory was found.
    #[error("out of memory")]
    NoMemory,
    /// The side condition of this rule fails at this path.
    #[error("a side condition of a certificate fails")]
    Step(Vec<usize>, Rule),
    /// A polynomial at this path passes this limit.
    #[error("a polynomial of a certificate passes a limit")]
    Limit(Vec<usize>, Limit),
}

impl From<NoMemory> for CertFault {
    ghost use Rattle.std.specs.Prelude.{◌≡◌};
    ghost use Rattle.qs_entail.specs.declared.fault.CertFault.TheVariants.{NoMemory};

    ghost from_gives = { λ _ fault. fault ≡ NoMemory };

    fn from(_fault: NoMemory) -> CertFault {
        CertFault::NoMemory
    }
}

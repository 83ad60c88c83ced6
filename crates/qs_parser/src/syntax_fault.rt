// Why tokens are no unit.
ghost use Rattle.std.specs.Prelude.{◌≡◌};
ghost use Rattle.qs_parser.specs.declared.syntax_fault.SyntaxFault.TheVariants.{NoMemory};

use thiserror::Error;

/// Why tokens have no reading of height at most 128, with the number of a token; the number of all
/// tokens stands for their end.
#[derive(Clone, Copy, Debug, Error)]
pub enum SyntaxFault {
    /// No memory was found.
    #[error("out of memory")]
    NoMemory,
    /// The tokens before this one begin a unit of height at most 128, and with it they begin none;
    /// or they end here and are none.
    #[error("unexpected token {0}")]
    Unexpected(u32),
    /// This is the first token at which every reading is higher than 128.
    #[error("too deep at token {0}")]
    TooDeep(u32),
}

impl From<qs_base::NoMemory> for SyntaxFault {
    ghost from_gives = { λ _ answer. answer ≡ NoMemory };

    fn from(_fault: qs_base::NoMemory) -> SyntaxFault {
        SyntaxFault::NoMemory
    }
}

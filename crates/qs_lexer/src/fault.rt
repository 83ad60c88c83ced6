// Why a text has no tokens.
ghost use Rattle.std.specs.Prelude.{◌≡◌};
ghost use Rattle.qs_lexer.specs.Results.{fault_at};
ghost use Rattle.qs_lexer.specs.declared.fault.LexFault.TheVariants as fault;

use qs_base::NoMemory;
use std::alloc::{AllocError, AllocFailed};
use thiserror::Error;

/// What is wrong where the text goes on neither with white space nor with a token.
#[derive(Clone, Copy)]
pub enum FaultKind {
    /// A byte that begins nothing.
    BadByte,
    /// A comment that is not closed.
    OpenComment,
    /// A number that is none, a literal with an escape that is none (C11 6.4.4.4), or a character
    /// that has not one element.
    BadLiteral,
    /// A literal that is good, but a value in it does not fit its type.
    WideLiteral,
    /// A `#` first on its line that begins no line marker.
    Directive,
    /// A character or text that is not closed on its line.
    OpenText,
}

/// Why a text has no tokens: the first fault, with the number of the byte that it begins at.
#[derive(Clone, Copy, Debug, Error)]
pub enum LexFault {
    /// No memory was found.
    #[error("out of memory")]
    NoMemory,
    /// This byte begins nothing.
    #[error("bad byte at {0}")]
    BadByte(u32),
    /// The comment that begins here is not closed (C11 6.4.9).
    #[error("open comment at {0}")]
    OpenComment(u32),
    /// The literal that begins here is a number that is none (C11 6.4.4.1), has an escape that is
    /// none (C11 6.4.4.4), or is a character with no element or several.
    #[error("bad literal at {0}")]
    BadLiteral(u32),
    /// The literal that begins here is good, but a number of it fits neither `int` nor `unsigned`,
    /// or the value of an escape is over 255.
    #[error("wide literal at {0}")]
    WideLiteral(u32),
    /// This `#` is first on its line and begins no line marker.
    #[error("directive at {0}")]
    Directive(u32),
    /// The character or text that begins here is not closed on its line.
    #[error("open text at {0}")]
    OpenText(u32),
}

impl FaultKind {
    /// The fault of this kind at the byte `at`.
    pub fn at(self, at: u32) -> LexFault
        ensures { result ≡ fault_at self at }
    {
        match self {
            FaultKind::BadByte => LexFault::BadByte(at),
            FaultKind::OpenComment => LexFault::OpenComment(at),
            FaultKind::BadLiteral => LexFault::BadLiteral(at),
            FaultKind::WideLiteral => LexFault::WideLiteral(at),
            FaultKind::Directive => LexFault::Directive(at),
            FaultKind::OpenText => LexFault::OpenText(at),
        }
    }
}

impl From<NoMemory> for LexFault {
    ghost from_gives = { λ _ answer. answer ≡ fault.NoMemory };

    fn from(_fault: NoMemory) -> LexFault {
        LexFault::NoMemory
    }
}

impl From<AllocError> for LexFault {
    ghost from_gives = { λ _ answer. answer ≡ fault.NoMemory };

    fn from(_fault: AllocError) -> LexFault {
        LexFault::NoMemory
    }
}

impl<T: Drop> From<AllocFailed<T>> for LexFault {
    ghost from_gives = { λ _ answer. answer ≡ fault.NoMemory };

    fn from(_fault: AllocFailed<T>) -> LexFault {
        LexFault::NoMemory
    }
}

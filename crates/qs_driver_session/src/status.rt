// How a call of the tool ends.
ghost use Rattle.std.specs.Prelude.{◌≡◌};
ghost use Rattle.qs_driver_session.specs.Status.{code_of, elf_status};
ghost use Rattle.qs_driver_session.specs.declared.status.Status.TheVariants.{Image, NoMemory, StoreFailed};
ghost use Rattle.qs_driver_session.specs.declared.status.FileKind.TheVariants.{Output};

use qs_assert::Amount;
use qs_base::{Name, NoMemory, Pos};
use qs_elf::ElfFault;
use qs_image::ImageFault;
use qs_lexer::LexFault;
use qs_machine::Cause;
use qs_parser::SyntaxFault;
use qs_ports::WriteFault;
use qs_prooftext_meaning::TextFault;
use qs_report::{ProofText, Spot};
use qs_typing_findings::TypeFault;
use std::alloc::AllocFailed;
use thiserror::Error;

/// A file that the words name.
#[derive(Clone, Copy, Debug)]
pub enum FileKind {
    /// The C source.
    Source,
    /// The derivations of its functions.
    Derivation,
    /// The image that is run, or that gets an executable.
    Image,
    /// The executable whose image is taken.
    Elf,
    /// The bytes that the run takes as its input.
    Input,
    /// The file that the command writes.
    Output,
}

/// Where a token of a source stands, or where its tokens end.
#[derive(Clone, Copy, Debug)]
pub enum TokenPlace {
    /// A token begins here.
    At(Pos),
    /// The text ends here, and no token is left.
    End(Pos),
}

/// What is wrong with a source, or with the length of any file.
#[derive(Clone, Copy, Debug, Error)]
pub enum SourceFault {
    /// The file has more bytes than its limit.
    #[error("too long")]
    TooLong(FileKind),
    /// It has this lexical fault, at this line and column.
    #[error("{0}")]
    Lex(LexFault, Pos),
    /// Its tokens are no unit, or one that is too high; the fault names a token, which stands at
    /// this place.
    #[error("{0}")]
    Syntax(SyntaxFault, TokenPlace),
    /// It is a unit with this type fault first: a limit that is passed, a rule that is broken, no
    /// `main`, or a function without a body; the place is that of the node which the fault names,
    /// and `no main` names none.
    #[error("{0}")]
    Typing(TypeFault, Option<Pos>),
}

/// Why the proofs of a source can't be certified: the first cause in the order of search.
#[derive(Debug, Drop, Error)]
pub enum ProofFault {
    /// The text of the proof file has this fault first, at this line and column.
    #[error("{0}")]
    Text(TextFault, Pos),
    /// These functions, none with an entry in the file, call each other in turn: each the next, and
    /// the last the first.
    #[error("recursion without derivation")]
    Cycle(Vec<Name>),
    /// This function is the first that needs an entry in the file and has none.
    #[error("no entry")]
    NoEntry(Name),
    /// The definition of this name is the first that mentions a name that isn't defined earlier.
    #[error("order")]
    Order(Name),
    /// The entry of this function is the first of the file that isn't derived: at this place this
    /// is wrong.
    #[error("not derived")]
    Entry(Name, Spot, ProofText),
}

/// What is wrong with the words of the command line.
#[derive(Clone, Copy, Debug, Error)]
pub enum WordsFault {
    /// They mean no command.
    #[error("usage: qsc COMMAND FILE OPTIONS")]
    Usage,
    /// The file to write is a file to read.
    #[error("same name")]
    SameName,
    /// There are more or fewer arguments than `main` has parameters.
    #[error("arguments: expected {expected} given {given}")]
    ArgCount { expected: u32, given: usize },
    /// The argument of this number, from 0, is no value of its parameter's type; the first such.
    #[error("argument {0} out of range")]
    ArgRange(usize),
}

/// How a call of the tool ends.
#[derive(Drop)]
pub enum Status {
    /// All that the command asks for was done and written.
    Done,
    /// The source is refused, or a file is too long.
    Source(SourceFault),
    /// The proofs of the source can't be certified.
    Proof(ProofFault),
    /// The words are refused.
    Words(WordsFault),
    /// A file to read isn't there.
    Missing(FileKind),
    /// A call on the store failed.
    StoreFailed(FileKind),
    /// The file is no image.
    Image(ImageFault),
    /// The file is no executable of an image.
    Elf(ElfFault),
    /// The machine trapped at this pc.
    Trapped { cause: Cause, pc: u32 },
    /// The machine goes on after this many steps.
    StepLimit(u64),
    /// The bound is no number of bytes up to 2^28, so there is no stack to run on.
    NoBound(Amount),
    /// The stack is asked to have this many bytes, more than 2^28.
    StackTooLarge(u64),
    /// A call on a sink failed, whatever the status would have been.
    SinkFailed,
    /// No memory was found.
    NoMemory,
}

impl Status {
    /// The number with which the program ends, 0 where all was done.
    pub fn code(&self) -> u8
        ensures { result ≡ code_of self.now }
    {
        match self {
            Status::Done => 0,
            Status::Source(_) => 1,
            Status::Proof(_) => 2,
            Status::Words(_) => 3,
            Status::Missing(_) => 4,
            Status::StoreFailed(_) => 5,
            Status::Image(_) => 6,
            Status::Elf(_) => 6,
            Status::Trapped { .. } => 7,
            Status::StepLimit(_) => 8,
            Status::NoBound(_) => 9,
            Status::StackTooLarge(_) => 10,
            Status::SinkFailed => 11,
            Status::NoMemory => 12,
        }
    }
}

impl From<NoMemory> for Status {
    ghost from_gives = { λ _ status. status ≡ NoMemory };

    fn from(_fault: NoMemory) -> Status {
        Status::NoMemory
    }
}

impl<T: Drop> From<AllocFailed<T>> for Status {
    ghost from_gives = { λ _ status. status ≡ NoMemory };

    fn from(_fault: AllocFailed<T>) -> Status {
        Status::NoMemory
    }
}

impl From<ImageFault> for Status {
    ghost from_gives = { λ fault status. status ≡ Image fault };

    fn from(fault: ImageFault) -> Status {
        Status::Image(fault)
    }
}

impl From<ElfFault> for Status {
    ghost from_gives = { λ fault status. status ≡ elf_status fault };

    fn from(fault: ElfFault) -> Status {
        match fault {
            ElfFault::Short => Status::Elf(ElfFault::Short),
            ElfFault::Length(bytes) => Status::Elf(ElfFault::Length(bytes)),
            ElfFault::Field(at) => Status::Elf(ElfFault::Field(at)),
            ElfFault::Image(fault) => Status::Elf(ElfFault::Image(fault)),
            ElfFault::Differs(word) => Status::Elf(ElfFault::Differs(word)),
            ElfFault::NoMemory => Status::NoMemory,
        }
    }
}

impl From<WriteFault> for Status {
    ghost from_gives = { λ _ status. status ≡ StoreFailed Output };

    fn from(_fault: WriteFault) -> Status {
        Status::StoreFailed(FileKind::Output)
    }
}

// The commands, and what is wrong with words that mean none.
ghost use Rattle.std.specs.Prelude.{◌≡◌};
ghost use Rattle.qs_cli.specs.declared.commands.CliFault.TheVariants as fault;

use qs_base::NoMemory;
use std::alloc::{AllocError, AllocFailed};
use thiserror::Error;

/// The words of `elf`: the file of an image, and the one that gets its executable.
#[derive(Debug, Drop)]
pub struct ElfWords {
    pub image: String,
    pub out: String,
}

/// The words of `unelf`: the file of an executable, and the one that gets its image.
#[derive(Debug, Drop)]
pub struct UnelfWords {
    pub file: String,
    pub out: String,
}

/// The words of `calls`: a source, its proof file, and main's arguments.
#[derive(Debug, Drop)]
pub struct CallsWords {
    pub source: String,
    pub proof: String,
    pub args: Vec<i64>,
}

/// What the tool is asked to do. Files are named as in the words.
#[derive(Debug, Drop)]
pub enum Command {
    /// Compile a source file into an image.
    Build {
        source: String,
        proof: Option<String>,
        out: String,
    },
    /// Check a source file and its proofs.
    Check {
        source: String,
        proof: Option<String>,
    },
    /// Print the bound on the stack at these arguments of `main`.
    Bound {
        source: String,
        proof: Option<String>,
        args: Vec<i64>,
    },
    /// Print the bound on the number of calls at these arguments of `main`.
    Calls(CallsWords),
    /// Write the proofs that are found for a source file.
    Derive {
        source: String,
        out: String,
    },
    /// Print the core program of a source file.
    Outline {
        source: String,
    },
    /// Run an image on a stack of this many bytes, for at most so many steps.
    Run {
        image: String,
        stack: u64,
        args: Vec<i64>,
        input: Option<String>,
        steps: u64,
    },
    /// Compile a source file and run it on a stack of the size of its bound, for at most so many
    /// steps.
    Exec {
        source: String,
        proof: Option<String>,
        args: Vec<i64>,
        input: Option<String>,
        steps: u64,
    },
    /// Make a program of a chain of this many functions, and run it.
    Sample {
        count: u64,
        out: Option<String>,
    },
    /// Write the executable of an image.
    Elf(ElfWords),
    /// Write the image of an executable.
    Unelf(UnelfWords),
}

/// Why no command was read.
#[derive(Clone, Copy, Debug, Error)]
pub enum CliFault {
    /// The words mean no command.
    #[error("the words mean no command")]
    Usage,
    /// No memory was found.
    #[error("out of memory")]
    NoMemory,
}

impl From<NoMemory> for CliFault {
    ghost from_gives = { λ _ e. e ≡ fault.NoMemory };

    fn from(_fault: NoMemory) -> CliFault {
        CliFault::NoMemory
    }
}

impl From<AllocError> for CliFault {
    ghost from_gives = { λ _ e. e ≡ fault.NoMemory };

    fn from(_fault: AllocError) -> CliFault {
        CliFault::NoMemory
    }
}

impl<T: Drop> From<AllocFailed<T>> for CliFault {
    ghost from_gives = { λ _ e. e ≡ fault.NoMemory };

    fn from(_fault: AllocFailed<T>) -> CliFault {
        CliFault::NoMemory
    }
}

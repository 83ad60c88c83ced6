// The limits of what the tool takes, in bytes. The largest stack is the machine's own limit.

// The longest source is the longest text that the lexer takes.
pub use qs_lexer::SOURCE_LIMIT;

/// The longest proof file.
pub const PROOF_LIMIT: usize = 16_777_216;

/// The longest image.
pub const IMAGE_LIMIT: usize = 33_554_432;

/// The longest executable.
pub const ELF_LIMIT: usize = 33_554_432;

/// The longest input of a run.
pub const INPUT_LIMIT: usize = 1_048_576;

// The limits of an image.

/// The most words of code.
pub const MOST_CODE_WORDS: u32 = 262_144;

// The same number as `GLOBAL_LIMIT` of qs_typing, for another reason: that limits sources.
/// The most bytes of data.
pub const MOST_DATA_BYTES: u32 = 16_777_216;

// The same number as `FUNCTION_LIMIT` of qs_typing, for another reason: that limits sources.
/// The most functions with a body.
pub const MOST_FUNCTIONS: u32 = 512;

/// The most bytes of names together.
pub const MOST_NAME_BYTES: u32 = 1_048_576;

// The bytes of `LARGEST_FRAME` of qs_frames, on which nothing here stands.
/// The most bytes of stack that a call costs.
pub const LARGEST_COST: u32 = 1 << 28;

// The numbers of the environment's calls, which ECALL finds in a7.

/// Ends the program, with a0 modulo 256 as status.
pub const EXIT_CALL: u32 = 0;

/// Puts a0 modulo 256 on the output, and leaves that in a0.
pub const PUT_BYTE_CALL: u32 = 1;

/// Takes the next byte of the input into a0, or 0xffff_ffff at its end.
pub const TAKE_BYTE_CALL: u32 = 2;

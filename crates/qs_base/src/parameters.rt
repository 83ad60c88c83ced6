// How many parameters functions may have, and how many arguments go in registers.

/// The most parameters of `main`, which is given its arguments as a run starts.
pub const MOST_MAIN_PARAMETERS: u32 = 8;

/// The most parameters of any other function, and so the most arguments of a call.
pub const MOST_PARAMETERS: u32 = 16;

/// The most arguments of a call that go in registers, in a0 to a7. The others go on the stack
/// (RISC-V ELF psABI, "Integer Calling Convention").
pub const MOST_REGISTER_ARGUMENTS: u32 = 8;

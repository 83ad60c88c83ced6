// Where code and data begin.

/// Where code begins: the address of an image's first word of code.
pub const CODE_START: u32 = 0x0001_0000;

/// Where data begin: the address of an image's first byte of data.
pub const DATA_START: u32 = 0x1000_0000;

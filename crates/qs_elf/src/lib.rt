//! ELF32 executables: an image as one, and the image of one. A file is exactly what its image
//! makes, so that each of the two calls undoes the other.
#![tactic(auto)]

mod fault;
mod framing;
mod layout;
mod parts;
mod reading;
mod writing;

pub use fault::{ElfFault, StatedWord};
pub use layout::MOST_FILE_BYTES;
pub use reading::read;
pub use writing::write;

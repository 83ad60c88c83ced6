//! The commands that turn an image into an executable and back. Each reads one file and writes
//! another, and puts nothing where all was done.
#![tactic(auto)]

mod commands;
mod laws;

pub use commands::elf::elf;
pub use commands::unelf::unelf;
pub use laws::{elf_in_plain_words, images_come_back, unelf_in_plain_words};

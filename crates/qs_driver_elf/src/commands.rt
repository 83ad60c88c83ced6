// The commands: a file for each.
pub mod elf;
pub mod unelf;

// The command.
pub mod calls;

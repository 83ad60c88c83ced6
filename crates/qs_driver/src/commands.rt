// The commands that need core or an image of a source: a file for each.
pub mod bound;
pub mod build;
pub mod check;
pub mod derive;
pub mod exec;
pub mod outline;
pub mod sample;

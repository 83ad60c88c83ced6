// The commands that need neither core nor an image of a source: a file for each.
pub mod run;
pub mod usage;

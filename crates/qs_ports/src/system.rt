// The files of the system, and writers such as standard output.
mod again;
mod dir_store;
mod std_sink;

pub use dir_store::DirStore;
pub use std_sink::StdSink;

//! The outside as the tool sees it: a store of files, and sinks for bytes.
//!
//! - `Store` and `Sink` say what is promised of each store and sink (specs/StoreView.antt and
//!   SinkView.antt).
//! - `put_all`, `read_whole` and `write_whole` work through them (SinkView.antt and Whole.antt).
//! - In memory, `CleanStore` and `CleanSink` never fail, and `MemStore` and `MemSink` fail exactly
//!   at listed calls (Memory.antt and the files that are named after them).
//! - `DirStore` and `StdSink` are the files of the system and its writers (System.antt). They tell
//!   nothing of what they hold, but what a writer or a file is known to hold changes by exactly the
//!   bytes that are answered; that the system does what it answers, and opens the file that it is
//!   asked for, is trusted.
#![tactic(auto)]

mod memory;
mod sink;
mod store;
mod system;
mod whole;

pub use memory::{CleanSink, CleanStore, FILE_ROOM, MemSink, MemStore, StoreCall};
pub use sink::{Sink, SinkFault, put_all};
pub use store::{Store, StoreFault};
pub use system::{DirStore, StdSink};
pub use whole::{ReadFault, WriteFault, read_whole, write_whole};

// Stores and sinks in memory: `CleanStore` and `CleanSink` never fail, `MemStore` and `MemSink`
// fail at listed calls.
mod cells;
mod clean_sink;
mod clean_store;
mod mem_sink;
mod mem_store;
mod plan;
mod room;
mod shelf;
mod span;

pub use cells::FILE_ROOM;
pub use clean_sink::CleanSink;
pub use clean_store::CleanStore;
pub use mem_sink::MemSink;
pub use mem_store::MemStore;
pub use plan::StoreCall;

//! The outside: shelves, where files are read from, sources, where bytes come
//! from, and sinks, where bytes go.
//!
//! Above this layer no code names a file or a stream of the system. It is
//! generic over [`Shelf`], [`Source`] and [`Sink`], whose contracts say what an
//! answer means wherever the outside tells what it holds (`specs/Files.antt`,
//! `specs/Left.antt`, `specs/Told.antt`), and that an answer which blames the
//! outside comes only where its count of faults rose in that call
//! (`specs/Faults.antt`).
//!
//! Each has a form over the system ([`FileShelf`], [`StdSource`], [`StdSink`])
//! and one in memory that fails at the calls it is told to ([`MemoryShelf`],
//! [`MemorySource`], [`MemorySink`]).
#![tactic(auto)]

mod calls;
#[cfg(test)]
mod choppy;
mod failed;
mod file_shelf;
mod memory_shelf;
mod memory_sink;
mod memory_source;
mod shelf;
mod sink;
mod source;
mod std_sink;
mod std_source;

pub use failed::Failed;
pub use file_shelf::FileShelf;
pub use memory_shelf::{MemoryShelf, ShelfFile};
pub use memory_sink::{MemorySink, SinkFault};
pub use memory_source::MemorySource;
pub use shelf::{Shelf, ShelfRefusal};
pub use sink::Sink;
pub use source::Source;
pub use std_sink::StdSink;
pub use std_source::StdSource;

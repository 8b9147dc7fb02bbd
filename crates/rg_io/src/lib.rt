//! Bytes that come and go (docs/architecture.md). `Files`, `Source` and `Sink` are traits, each
//! with a count of faults, which rose where a call fails (`Failed`), and with the content that is
//! told, or None; `Files` have the names too that were begun. `put_all` gives a sink all bytes in
//! order, or a prefix where it failed (clauses `ok`, `part`); `take_all` takes a whole file up to a
//! limit, and begins no other. Which calls of `MemFiles`, `MemSource` and `MemSink` fail is exact;
//! `StdFiles`, `StdSource`, `StdSink` tell no content.
#![tactic(auto)]

mod begun;
mod calls;
mod failed;
mod files;
mod mem_files;
mod mem_sink;
mod mem_source;
mod pieces;
mod reading;
mod shelf;
mod sink;
mod source;
mod std_files;
mod std_sink;
mod std_source;

pub use failed::Failed;
pub use files::{Files, Taken, take_all};
pub use mem_files::MemFiles;
pub use mem_sink::MemSink;
pub use mem_source::MemSource;
pub use sink::{Sink, put_all};
pub use source::Source;
pub use std_files::StdFiles;
pub use std_sink::StdSink;
pub use std_source::StdSource;

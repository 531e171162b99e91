//! Where bytes come from and go to: sources and sinks that count their faults, in memory and over files,
//! and the two transfers between them and lists of bytes.
//! Its tests stand in `search_tests`; real files are read and written by `.ci/files`, which runs the program.
#![tactic(auto)]

mod fault;
mod fault_plan;
mod files;
mod gather;
mod gather_laws;
mod give;
mod memory_sink;
mod memory_source;
mod plain_source;
mod sink;
mod source;
mod transfer;

pub use files::{FileSink, FileSource};
pub use gather::Gather;
pub use gather_laws::{fails_behind, flushes_all, gathered_follow, gathers_both};
pub use memory_sink::MemSink;
pub use memory_source::MemSource;
pub use plain_source::PlainSource;
pub use sink::Sink;
pub use source::{Failed, Source};
pub use transfer::{ReadStop, read_all, write_all};

//! Where the program's bytes come from and go to: two traits that say exactly what a call did,
//! sources and sinks in memory for tests, and the adapters of the real standard streams.
#![tactic(auto)]

mod counts;
mod mem_sink;
mod mem_source;
mod sink;
mod source;
mod std_stream;
mod whole;

pub use mem_sink::{MemSink, NullSink};
pub use mem_source::{CleanSource, MemSource};
pub use sink::{Sink, SinkFailed};
pub use source::{Source, SourceFailed};
pub use std_stream::{StdSink, StdSource};
pub use whole::put_all;

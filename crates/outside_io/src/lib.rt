//! What is outside the program: bytes that come in and bytes that go out, as two traits whose clauses say which
//! bytes, where they are known, and count the faults. The layers above read all input with `read_all` and write each
//! line with `write_all`; `main` alone makes the standard streams, and the tests use sources and sinks in memory.
#![tactic(auto)]

mod failed;
mod failing_sink;
mod failing_source;
mod memory;
mod reading;
mod sink;
mod source;
mod standard;
mod streams;
mod writing;

pub use failed::Failed;
pub use failing_sink::FailingSink;
pub use failing_source::FailingSource;
pub use memory::{MemSink, MemSource};
pub use reading::{ReadError, read_all};
pub use sink::Sink;
pub use source::Source;
pub use standard::{StdSink, StdSource};
pub use streams::{flush_counted, read_counted, write_counted};
pub use writing::{WriteFault, write_all};

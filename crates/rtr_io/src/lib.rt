//! Sources and sinks of bytes, reading to the end and writing all, over memory and over std's streams. `Source` and
//! `Sink` are the two traits by which the tool reads and writes.
//!
//! Each refusal says how much was taken at most, so no body can read on after a fault. `StdSource` and `StdSink` tell
//! of the bytes what std's `Read` and `Write` tell at the type on which they stand. So a body that drops bytes, or
//! tells a short write as a whole one, is refused. No clause counts calls; that none follows one that failed is shown
//! by a test.
//!
//! Proved: `read_all` gives all that was left, or says which fault came and how much was taken. At `TooLarge` that is
//! just one byte more than `max`, at `ReadFault` at most `max`, and for want of memory at most one more. `write_all`
//! gives all or a part. The clauses of `MemSource` and `MemSink` say which calls fail and how much the others move.
//! `StdSource` and `StdSink` move what their reader or writer moves, wherever that tells it.
#![tactic(auto)]

mod memory_streams;
mod std_streams;
mod traits;
mod transfer;

pub use memory_streams::{MemSink, MemSource};
pub use std_streams::{StdSink, StdSource, StdStream};
pub use traits::{Failed, Sink, Source};
pub use transfer::{ReadEnd, WriteFault, read_all, write_all};

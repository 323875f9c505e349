//! Where bytes come from and where they go: sources and sinks whose failed calls are counted.
//! The layer above uses the clauses of `Source` and `Sink`, which speak of a source's bytes still
//! to come, its count of faults and whether it has ended, and of a sink's bytes taken and its count
//! of faults; and that of `write_all`. Nothing here knows what the bytes say: no format, no job, no
//! verdict. A gate is where a worker may be held; the doors, for tests, are a gate, a source and a
//! sink that wait for one another.
#![tactic(auto)]

mod door_gate;
mod door_sink;
mod door_source;
mod gate;
mod memory_sink;
mod memory_source;
mod outside;
mod pieces;
mod script;
mod std_sink;
mod std_source;
mod system;

pub use door_gate::DoorGate;
pub use door_sink::DoorSink;
pub use door_source::DoorSource;
pub use gate::{Gate, NoGate};
pub use memory_sink::MemorySink;
pub use memory_source::MemorySource;
pub use outside::{Failed, Sink, Source};
pub use pieces::write_all;
pub use std_sink::StdSink;
pub use std_source::StdSource;

#[cfg(test)]
mod tests;

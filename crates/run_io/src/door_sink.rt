//! A sink for tests that tells when it has taken a write.
ghost use Rattle.std.specs.Prelude.{◌≡◌, ◌<◌, ◌≤◌, ◌↔◌, [], None, IfOk, IsErr, IsOk, OnErr, OnOk};
ghost use Rattle.std.specs.Prelude.{length, take};
ghost use Rattle.run_io.specs.Fault.{HasCause};
ghost use Rattle.run_io.specs.MemorySinkState.{WriteFails, write_count, after_write, after_flush};
ghost use Rattle.run_io.specs.MemorySinkState.{after_sink_fault};

use crate::{Failed, MemorySink, Sink};
use std::alloc::{AllocError, Global};
use std::marker::Model;
use std::sync::atomic::AtomicBool;
use std::sync::atomic::Ordering::SeqCst;

/// A sink that keeps what it takes, up to a fixed room, and sets a flag when it has taken a write.
/// What it took is no meaning of the sink as layers above see it; a test reads it by `bytes`.
#[derive(Drop)]
pub struct DoorSink<'a> {
    written: &'a AtomicBool,
    bytes: MemorySink,
}

impl<'a> Model for DoorSink<'a> {
    ghost use Rattle.run_io.specs.MemorySinkState.{SinkState};

    ghost Value = { SinkState };

    ghost view = { λ a. a.bytes };
}

impl<'a> DoorSink<'a> {
    /// Takes `room` bytes in all; a write of a piece that isn't empty fails where the room is used
    /// up, and a flush fails never.
    ///
    /// # Errors
    ///
    /// `AllocError` where there is no memory for the room.
    pub fn new(
        alloc: Global,
        written: &'a AtomicBool,
        room: usize,
    ) -> Result<DoorSink<'a>, AllocError>
        ensures empty { IfOk result (λ sink. sink.taken ≡ []) }
        ensures room { IfOk result (λ sink. (sink.room ≡ room) × (sink.most ≡ room)) }
        ensures script { IfOk result (λ sink. (sink.script.fails ≡ []) × (sink.script.faults ≡ 0)) }
    {
        let bytes = MemorySink::new(alloc, room, room, Vec::new(alloc))?;
        Ok(DoorSink { written, bytes })
    }

    /// What was taken so far.
    pub fn bytes(&self) -> &[u8]
        ensures { result.now ≡ self.now.taken }
    {
        self.bytes.bytes()
    }
}

impl<'a> Sink for DoorSink<'a> {
    ghost taken = { λ _. None };

    ghost faults = { λ s. s.script.faults };

    fn write(&mut self, piece: &[u8]) -> Result<usize, Failed>
        ensures count { IfOk result (λ n. n ≤ length piece.now) }
        ensures some { IfOk result (λ n. 0 < length piece.now → 0 < n) }
        ensures cause { HasCause self.old.script.faults self.new.script.faults result }
        ensures fails { IsErr result ↔ WriteFails self.old piece.now }
        ensures takes { IfOk result (λ n. n ≡ write_count self.old (length piece.now)) }
        ensures written { IfOk result (λ n. self.new ≡ after_write self.old (take n piece.now)) }
        ensures failed { OnErr result (self.new ≡ after_sink_fault self.old) }
    {
        let count = self.bytes.write(piece)?;
        self.written.store(true, SeqCst);
        Ok(count)
    }

    fn flush(&mut self) -> Result<(), Failed>
        ensures cause { HasCause self.old.script.faults self.new.script.faults result }
        ensures flushed { OnOk result (self.new ≡ after_flush self.old) }
        ensures failed { OnErr result (self.new ≡ after_sink_fault self.old) }
    {
        self.bytes.flush()
    }
}

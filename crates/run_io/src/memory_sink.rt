//! A sink that keeps its bytes in memory.
ghost use Rattle.std.specs.Prelude.{◌≡◌, ◌<◌, ◌≤◌, ◌↔◌, [], IfOk, IsErr, OnErr, OnOk, length, take};
ghost use Rattle.run_io.specs.Bytes.{appended};
ghost use Rattle.run_io.specs.Fault.{HasCause};
ghost use Rattle.run_io.specs.MemorySinkState.{WriteFails, write_count, after_write, after_flush};
ghost use Rattle.run_io.specs.MemorySinkState.{after_sink_fault};
ghost use Rattle.run_io.specs.Script.{new_script, NextFails};

use crate::script::Script;
use crate::{Failed, Sink};
use std::alloc::{AllocError, Global};
use std::marker::Model;

/// A sink that keeps what it takes, up to a fixed room, and fails at planned calls. Its room is
/// there from the start, so that no write takes memory.
#[derive(Drop)]
pub struct MemorySink {
    bytes: Vec<u8>,
    room: usize,
    most: usize,
    script: Script,
}

impl Model for MemorySink {
    ghost use Rattle.std.specs.Prelude.{◌≤◌, length, vec_capacity};
    ghost use Rattle.run_io.specs.MemorySinkState.{SinkState};

    ghost Value = { SinkState };

    ghost view = { λ a. record {
      taken = a.bytes.items;
      room = a.room;
      most = a.most;
      script = a.script;
    } };

    ghost invariant = { λ a. (length a.bytes.items ≤ a.room) × (a.room ≤ vec_capacity a.bytes) };
}

impl MemorySink {
    /// Takes at most `most` bytes at a write (0 counts as 1) and `room` bytes in all; a write of a
    /// piece that isn't empty fails where the room is used up. The calls of `write` and `flush` are
    /// numbered from 1, and those in `fail` fail.
    ///
    /// # Errors
    ///
    /// `AllocError` where there is no memory for the room.
    pub fn new(
        alloc: Global,
        room: usize,
        most: usize,
        fail: Vec<u64>,
    ) -> Result<MemorySink, AllocError>
        ensures { IfOk result (λ sink. sink ≡ record {
          taken = [];
          room = room;
          most = most;
          script = new_script fail.items;
        }) }
    {
        let bytes = Vec::with_capacity(alloc, room)?;
        Ok(MemorySink {
            bytes,
            room,
            most,
            script: Script::new(fail),
        })
    }

    /// What was taken so far.
    pub fn bytes(&self) -> &[u8]
        ensures { result.now ≡ self.now.taken }
    {
        &self.bytes
    }
}

impl Sink for MemorySink {
    ghost use Rattle.std.specs.Prelude.{Some};

    ghost taken = { λ s. Some s.taken };

    ghost faults = { λ s. s.script.faults };

    fn write(&mut self, piece: &[u8]) -> Result<usize, Failed>
        ensures count { IfOk result (λ n. n ≤ length piece.now) }
        ensures some { IfOk result (λ n. 0 < length piece.now → 0 < n) }
        ensures bytes { IfOk result
            (λ n. Some self.new.taken ≡ appended (Some self.old.taken) (take n piece.now)) }
        ensures err { OnErr result (Some self.new.taken ≡ Some self.old.taken) }
        ensures cause { HasCause self.old.script.faults self.new.script.faults result }
        ensures fails { IsErr result ↔ WriteFails self.old piece.now }
        ensures takes { IfOk result (λ n. n ≡ write_count self.old (length piece.now)) }
        ensures written { IfOk result (λ n. self.new ≡ after_write self.old (take n piece.now)) }
        ensures failed { OnErr result (self.new ≡ after_sink_fault self.old) }
    {
        self.script.call()?;
        let left = self.room - self.bytes.len();
        if left == 0 && !piece.is_empty() {
            return Err(self.script.fault());
        }
        let count = piece.len().min(self.most.max(1)).min(left);
        self.bytes.extend_from_slice(&piece[..count]).unwrap();
        Ok(count)
    }

    fn flush(&mut self) -> Result<(), Failed>
        ensures bytes { Some self.new.taken ≡ Some self.old.taken }
        ensures cause { HasCause self.old.script.faults self.new.script.faults result }
        ensures fails { IsErr result ↔ NextFails self.old.script }
        ensures flushed { OnOk result (self.new ≡ after_flush self.old) }
        ensures failed { OnErr result (self.new ≡ after_sink_fault self.old) }
    {
        self.script.call()
    }
}

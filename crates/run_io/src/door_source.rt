//! A source for tests whose reads need an answer, and a write, first.
ghost use Rattle.std.specs.Prelude.{◌≡◌, ◌<◌, ◌≤◌, ◌||◌, ◌⊎◌, ◌++◌, None, IfOk, IsErr, OnErr};
ghost use Rattle.std.specs.Prelude.{IsOk, length, take, drop, false, true};
ghost use Rattle.run_io.specs.Bytes.{is_end};
ghost use Rattle.run_io.specs.DoorSourceState.{IsBehindDoor};
ghost use Rattle.run_io.specs.Fault.{one_more, HasCause};
ghost use Rattle.run_io.specs.MemorySourceState.{read_count, after_read};
ghost use Rattle.run_io.specs.Script.{new_script};

use crate::system::counted_answer;
use crate::{DoorGate, Failed, MemorySource, Source};
use std::marker::Model;
use std::sync::atomic::AtomicBool;
use std::sync::atomic::Ordering::SeqCst;
use std::thread;

/// How often a read looks whether its door is open.
const LOOKS: u64 = 10_000_000;

/// A source over bytes in memory with two doors. Its second read fails unless the job that the gate
/// waits for was answered, its third read unless the sink has taken a write, and each waits for that
/// by 10,000,000 looks. A failed read takes nothing, and no other read fails. What comes is no
/// meaning of the source as layers above see it, since nobody knows which doors will be open.
#[derive(Drop)]
pub struct DoorSource<'a> {
    gate: &'a DoorGate,
    written: &'a AtomicBool,
    bytes: MemorySource,
    reads: u64,
    faults: u64,
}

impl<'a> Model for DoorSource<'a> {
    ghost use Rattle.std.specs.Prelude.{◌≡◌, []};
    ghost use Rattle.run_io.specs.DoorSourceState.{DoorSourceState};

    ghost Value = { DoorSourceState };

    ghost view = { λ a. record { bytes = a.bytes; reads = a.reads; faults = a.faults } };

    ghost invariant = { λ a. a.bytes.script.fails ≡ [] };
}

impl<'a> DoorSource<'a> {
    /// Each read that doesn't fail gives at most the next of `cuts` (0 counts as 1), and as many
    /// bytes as fit once there is none. `written` is the flag that a `DoorSink` sets.
    pub fn new(
        gate: &'a DoorGate,
        written: &'a AtomicBool,
        bytes: Vec<u8>,
        cuts: Vec<usize>,
    ) -> DoorSource<'a>
        ensures bytes { (result.bytes.left ≡ bytes.items) × (result.bytes.cuts ≡ cuts.items) }
        ensures fresh { (result.reads ≡ 0) × (result.faults ≡ 0) × (result.bytes.ended ≡ false) }
    {
        let none = Vec::new(*bytes.allocator());
        DoorSource {
            gate,
            written,
            bytes: MemorySource::new(bytes, cuts, none),
            reads: 0,
            faults: 0,
        }
    }

    /// Whether the door of the read with this number is open.
    fn is_open(&self, read: u64) -> bool
        ensures { result ≡ false → IsBehindDoor read }
    {
        match read {
            2 => self.gate.opens_within(LOOKS),
            3 => self.is_written_within(LOOKS),
            _ => true,
        }
    }

    /// Looks at most so many times, and tells whether the sink had taken a write then.
    fn is_written_within(&self, looks: u64) -> bool {
        for _ in 0..looks {
            if self.written.load(SeqCst) {
                return true;
            }
            thread::yield_now();
        }
        false
    }
}

impl<'a> Source for DoorSource<'a> {
    ghost left = { λ _. None };

    ghost faults = { λ s. s.faults };

    ghost ended = { λ s. s.bytes.ended };

    ghost opened = { λ _ _. true };

    fn start(&mut self, _name: Option<&str>) -> Result<(), Failed>
        ensures ended { self.new.bytes.ended ≡ self.old.bytes.ended }
        ensures cause { HasCause self.old.faults self.new.faults result }
        ensures ok { IsOk result }
        ensures same { self.new ≡ self.old }
    {
        Ok(())
    }

    fn read(&mut self, buf: &mut [u8]) -> Result<usize, Failed>
        ensures count { IfOk result (λ n. n ≤ length buf.old) }
        ensures ended { self.new.bytes.ended
            ≡ (self.old.bytes.ended || is_end result (length buf.old)) }
        ensures cause { HasCause self.old.faults self.new.faults result }
        ensures reads { self.new.reads ≡ one_more self.old.reads }
        ensures doors { IsErr result → IsBehindDoor self.new.reads }
        ensures gives { IfOk result (λ n. n ≡ read_count self.old.bytes (length buf.old)) }
        ensures buffer { IfOk result
            (λ n. buf.new ≡ take n self.old.bytes.left ++ drop n buf.old) }
        ensures given { IfOk result
            (λ n. self.new.bytes ≡ after_read self.old.bytes (length buf.old) n) }
        ensures failed { OnErr result (self.new.bytes ≡ self.old.bytes) }
        ensures counted { OnErr result (self.new.faults ≡ one_more self.old.faults) }
        ensures untouched { OnErr result (buf.new ≡ buf.old) }
    {
        self.reads = self.reads.saturating_add(1);
        let answer = if self.is_open(self.reads) {
            self.bytes.read(buf)
        } else {
            Err(Failed)
        };
        counted_answer(answer, &mut self.faults)
    }
}

//! A source that gives its next piece only once the block of the piece before was written.

ghost use Rattle.std.specs.Prelude.{◌≡◌, ◌≤◌, false, length};
ghost use Rattle.run_io.specs.Bytes.{is_end_at};

use super::sides::WORKERS;
use super::{TWO_ANSWERS, TWO_JOBS, words_of};
use crate::{run, run_alone};
use run_io::{DoorGate, DoorSink, DoorSource, Failed, NoGate, Sink, Source};
use std::alloc::{AllocError, Global};
use std::process::Abort;
use std::sync::Wait;
use std::sync::atomic::Ordering::SeqCst;
use std::sync::atomic::{AtomicBool, AtomicUsize};
use std::test::Fail;
use std::thread::{self, Threads};

const PIECES: [&[u8]; 2] = [b"p inccnf\n1 0\na 0\n", b"-1 0\na 0\n"];

// How often a read looks whether the blocks before it were written.
const LOOKS: u64 = 10_000_000;

// Each piece ends one job, so a read waits until as many blocks were written as there were reads.
#[derive(Drop)]
struct Asking<'a> {
    writes: &'a AtomicUsize,
    reads: usize,
    faults: u64,
    ended: bool,
}

impl<'a> Asking<'a> {
    fn new(writes: &'a AtomicUsize) -> Asking<'a>
        ensures { (result.faults ≡ 0) × (result.ended ≡ false) }
    {
        Asking {
            writes,
            reads: 0,
            faults: 0,
            ended: false,
        }
    }

    // Whether the blocks before the next piece were written, within so many looks.
    fn is_answered(&self) -> bool {
        for _ in 0..LOOKS {
            if self.writes.load(SeqCst) >= self.reads {
                return true;
            }
            thread::yield_now();
        }
        false
    }
}

impl<'a> Source for Asking<'a> {
    ghost use Rattle.std.specs.Prelude.{None, true};

    ghost left = { λ _. None };

    ghost faults = { λ s. s.faults };

    ghost ended = { λ s. s.ended };

    ghost opened = { λ _ _. true };

    fn start(&mut self, _name: Option<&str>) -> Result<(), Failed> {
        Ok(())
    }

    fn read(&mut self, buf: &mut [u8]) -> Result<usize, Failed> {
        if !self.is_answered() {
            self.faults = self.faults.saturating_add(1);
            return Err(Failed);
        }
        let count = match PIECES.get(self.reads) {
            None => 0,
            Some(piece) => copy_front(piece, buf),
        };
        self.reads = self.reads.saturating_add(1);
        self.ended |= finds_end(count, buf.len());
        Ok(count)
    }
}

pub(super) fn finds_end(count: usize, room: usize) -> bool
    ensures { result ≡ is_end_at count room }
{
    count == 0 && room > 0
}

pub(super) fn copy_front(bytes: &[u8], buf: &mut [u8]) -> usize
    ensures { result ≤ length buf.old }
{
    let count = bytes.len().min(buf.len());
    buf[..count].copy_from_slice(&bytes[..count]);
    count
}

// Counts its writes, and keeps nothing.
#[derive(Drop)]
struct Counting<'a> {
    writes: &'a AtomicUsize,
}

impl<'a> Sink for Counting<'a> {
    ghost use Rattle.std.specs.Prelude.{None};

    ghost taken = { λ _. None };

    ghost faults = { λ _. 0 };

    fn write(&mut self, piece: &[u8]) -> Result<usize, Failed> {
        self.writes.fetch_add(1, SeqCst);
        Ok(piece.len())
    }

    fn flush(&mut self) -> Result<(), Failed> {
        Ok(())
    }
}

// Two blocks and the last line were written, none of them late.
fn assert_answered(rt: &impl Abort, status: u8, writes: &AtomicUsize) {
    assert_eq!(rt; status, 0);
    assert_eq!(rt; writes.load(SeqCst), 3, "two blocks and the last line");
}

#[test]
fn a_block_is_written_before_more_is_read(rt: HostRuntime) {
    let writes = AtomicUsize::new(0);
    let mut source = Asking::new(&writes);
    let mut sink = Counting { writes: &writes };
    let finish = run_alone(rt.alloc(), &[], &mut source, &mut sink);
    assert_answered(&rt, finish.status, &writes);
}

fn assert_talks<R: Threads + Wait + Sync + Abort>(
    rt: &R,
    alloc: Global,
    line: &str,
) -> Result<(), AllocError> {
    let words = words_of(alloc, line)?;
    let writes = AtomicUsize::new(0);
    let mut source = Asking::new(&writes);
    let mut sink = Counting { writes: &writes };
    let finish = run(rt, alloc, &words, &mut source, &mut sink, &NoGate);
    assert_answered(rt, finish.status, &writes);
    Ok(())
}

// The source reads on only where a job was answered, and then only where its block was written.
fn assert_goes_through_doors<R: Threads + Wait + Sync + Abort>(
    rt: &R,
    alloc: Global,
    line: &str,
) -> Result<(), AllocError> {
    let words = words_of(alloc, line)?;
    let gate = DoorGate::new(0, 1, LOOKS);
    let written = AtomicBool::new(false);
    let text = TWO_JOBS.as_bytes().to_vec(alloc)?;
    let mut source = DoorSource::new(&gate, &written, text, [17, 5, 4].to_vec(alloc)?);
    let mut sink = DoorSink::new(alloc, &written, 1000)?;
    let finish = run(rt, alloc, &words, &mut source, &mut sink, &gate);
    assert_eq!(rt; sink.bytes(), TWO_ANSWERS.as_bytes(), "{line}");
    assert_eq!(rt; finish.status, 0, "{line}");
    Ok(())
}

#[test]
fn a_block_is_written_before_the_text_has_ended(rt: HostRuntime) -> Result<(), Fail> {
    for line in WORKERS {
        assert_goes_through_doors(&rt, rt.alloc(), line)?;
    }
    Ok(())
}

#[test]
fn a_block_is_written_while_the_source_is_silent(rt: HostRuntime) -> Result<(), Fail> {
    for line in WORKERS {
        assert_talks(&rt, rt.alloc(), line)?;
    }
    Ok(())
}

//! Doors: what opens them, and what becomes of whoever comes too early.
use crate::{DoorGate, DoorSink, DoorSource, Failed, Gate, Sink, Source};
use std::alloc::{AllocError, Global};
use std::process::Abort;
use std::sync::Wait;
use std::sync::atomic::AtomicBool;
use std::sync::atomic::Ordering::SeqCst;
use std::test::Fail;
use std::thread::{Threads, join_mut};

const BYTES: [u8; 4] = [10, 20, 30, 40];

// A source with these bytes, one a read.
fn byte_by_byte<'a>(
    alloc: Global,
    gate: &'a DoorGate,
    written: &'a AtomicBool,
) -> Result<DoorSource<'a>, AllocError> {
    Ok(DoorSource::new(
        gate,
        written,
        BYTES.to_vec(alloc)?,
        [1, 1, 0, 1].to_vec(alloc)?,
    ))
}

// The next read gives exactly this byte.
fn assert_gives(rt: &impl Abort, source: &mut DoorSource, byte: u8) {
    let mut buf = [0; 2];
    assert_eq!(rt; source.read(&mut buf), Ok(1));
    assert_eq!(rt; buf[0], byte);
}

#[test]
fn a_door_gate_is_late_where_the_other_job_is_not_answered(rt: HostRuntime) {
    let gate = DoorGate::new(1, 2, 3);
    gate.before(&rt, 1, 2);
    gate.after(&rt, 1, 1);
    assert!(rt; !gate.was_late() && !gate.answered());
    gate.before(&rt, 1, 1);
    assert!(rt; gate.was_late() && !gate.answered());
    let gate = DoorGate::new(1, 2, 3);
    gate.after(&rt, 1, 2);
    gate.before(&rt, 1, 1);
    assert!(rt; !gate.was_late() && gate.answered());
}

// One thread comes to the gate with the held job, the other ends the job that it waits for.
fn come_and_end<R: Threads + Wait + Sync>(rt: &R, gate: &DoorGate) {
    join_mut(
        rt,
        &mut || { gate.before(rt, 1, 1) },
        &mut || { gate.after(rt, 2, 2) },
    );
}

#[test]
fn a_door_gate_holds_a_job_until_the_other_is_answered(rt: HostRuntime) {
    let gate = DoorGate::new(1, 2, 10_000_000);
    come_and_end(&rt, &gate);
    assert!(rt; gate.answered() && !gate.was_late());
}

#[test]
fn a_door_source_reads_on_behind_an_answer_and_a_write(rt: HostRuntime) -> Result<(), Fail> {
    let alloc = rt.alloc();
    let gate = DoorGate::new(0, 1, 0);
    let written = AtomicBool::new(false);
    let mut source = byte_by_byte(alloc, &gate, &written)?;
    let mut sink = DoorSink::new(alloc, &written, 3)?;
    assert_eq!(rt; source.start(Some("any")), Ok(()));
    assert_gives(&rt, &mut source, 10);
    gate.after(&rt, 1, 1);
    assert_gives(&rt, &mut source, 20);
    assert_eq!(rt; sink.write(&BYTES), Ok(3), "up to its room");
    assert_gives(&rt, &mut source, 30);
    assert_gives(&rt, &mut source, 40);
    assert_eq!(rt; source.read(&mut [0; 2]), Ok(0));
    assert_eq!(rt; sink.write(&BYTES), Err(Failed));
    assert_eq!(rt; sink.write(&[]), Ok(0));
    assert_eq!(rt; sink.flush(), Ok(()));
    assert_eq!(rt; sink.bytes(), [10, 20, 30].as_slice());
    Ok(())
}

#[test]
fn a_door_source_fails_before_an_answer_and_before_a_write(rt: HostRuntime) -> Result<(), Fail> {
    let alloc = rt.alloc();
    let gate = DoorGate::new(0, 1, 0);
    let written = AtomicBool::new(false);
    let mut source = byte_by_byte(alloc, &gate, &written)?;
    let mut full = DoorSink::new(alloc, &written, 0)?;
    assert_gives(&rt, &mut source, 10);
    assert_eq!(rt; source.read(&mut [0; 2]), Err(Failed), "no answer yet");
    assert_eq!(rt; full.write(&BYTES), Err(Failed));
    assert!(rt; !written.load(SeqCst), "a write that failed was not taken");
    assert_eq!(rt; source.read(&mut [0; 2]), Err(Failed), "no write yet");
    assert_gives(&rt, &mut source, 20);
    Ok(())
}

// One thread reads the source up to its end, the other answers the job and writes.
fn read_while_written<R: Threads + Wait + Sync>(
    rt: &R,
    gate: &DoorGate,
    source: &mut DoorSource,
    sink: &mut DoorSink,
) -> Result<usize, Failed> {
    let (_, read) = join_mut(
        rt,
        &mut || -> Result<usize, Failed> {
            let taken = sink.write(&BYTES);
            gate.after(rt, 1, 1);
            taken
        },
        &mut || -> Result<usize, Failed> {
            source.read(&mut [0; 1])?;
            source.read(&mut [0; 1])?;
            source.read(&mut [0; 1])
        },
    );
    read
}

#[test]
fn a_door_source_waits_for_an_answer_from_another_thread(rt: HostRuntime) -> Result<(), Fail> {
    let alloc = rt.alloc();
    let gate = DoorGate::new(0, 1, 0);
    let written = AtomicBool::new(false);
    let mut source = byte_by_byte(alloc, &gate, &written)?;
    let mut sink = DoorSink::new(alloc, &written, 4)?;
    assert_eq!(rt;
        read_while_written(&rt, &gate, &mut source, &mut sink),
        Ok(1)
    );
    assert_eq!(rt; sink.bytes(), BYTES.as_slice());
    Ok(())
}

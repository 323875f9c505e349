//! What no clause says: worked cases, and calls of the system.
mod doors;

use super::*;
use std::alloc::{AllocError, Global};
use std::cell::Cell;
use std::fmt::Display;
use std::io;
use std::process::Abort;
use std::test::Fail;

const BYTES: [u8; 5] = [10, 20, 30, 40, 50];

#[derive(Drop)]
struct Reads<'a> {
    cuts: &'a [usize],
    fail: &'a [u64],
    room: usize,
    answers: &'a [Result<usize, Failed>],
}

// The reads are answered so, and give the bytes in order.
fn assert_reads(alloc: Global, rt: &impl Abort, case: &Reads) -> Result<(), AllocError> {
    let mut source = MemorySource::new(
        BYTES.to_vec(alloc)?,
        case.cuts.to_vec(alloc)?,
        case.fail.to_vec(alloc)?,
    );
    assert_eq!(rt; source.start(None), Ok(()));
    let mut given = Vec::new(alloc);
    for answer in case.answers {
        let mut buf = [0; 9];
        let read = source.read(&mut buf[..case.room.min(9)]);
        assert_eq!(rt; read, *answer);
        given.extend_from_slice(&buf[..read.unwrap_or(0).min(9)])?;
    }
    let whole = if case.room == 0 { 0 } else { 5 };
    assert_eq!(rt; given.as_slice(), &BYTES[..whole]);
    Ok(())
}

#[test]
fn a_memory_source_gives_its_bytes_by_cuts(rt: HostRuntime) -> Result<(), Fail> {
    let cases = [
        // As many as fit, to the end.
        Reads {
            cuts: &[],
            fail: &[],
            room: 4,
            answers: &[Ok(4), Ok(1), Ok(0), Ok(0)],
        },
        // A cut of 0 counts as 1, and a cut is no more than fits.
        Reads {
            cuts: &[0, 1, 9, 2],
            fail: &[],
            room: 2,
            answers: &[Ok(1), Ok(1), Ok(2), Ok(1), Ok(0)],
        },
    ];
    for case in &cases {
        assert_reads(rt.alloc(), &rt, case)?;
    }
    Ok(())
}

#[test]
fn a_memory_source_fails_at_planned_calls(rt: HostRuntime) -> Result<(), Fail> {
    let cases = [
        // The start is call 1, and a failed read uses up no cut.
        Reads {
            cuts: &[3],
            fail: &[2, 4, 6],
            room: 9,
            answers: &[Err(Failed), Ok(3), Err(Failed), Ok(2), Err(Failed), Ok(0)],
        },
        // No room.
        Reads {
            cuts: &[2, 2],
            fail: &[3],
            room: 0,
            answers: &[Ok(0), Err(Failed), Ok(0)],
        },
    ];
    let alloc = rt.alloc();
    for case in &cases {
        assert_reads(alloc, &rt, case)?;
    }
    let mut source = MemorySource::new(BYTES.to_vec(alloc)?, Vec::new(alloc), [1].to_vec(alloc)?);
    assert_eq!(rt; source.start(Some("any")), Err(Failed));
    assert_eq!(rt; source.start(Some("any")), Ok(()));
    Ok(())
}

#[derive(Drop)]
struct Writes<'a> {
    room: usize,
    most: usize,
    fail: &'a [u64],
    answers: &'a [Result<usize, Failed>],
    taken: &'a [u8],
}

// The writes of all bytes are answered so, and then an empty write and a flush are answered Ok.
fn assert_writes(alloc: Global, rt: &impl Abort, case: &Writes) -> Result<(), AllocError> {
    let mut sink = MemorySink::new(alloc, case.room, case.most, case.fail.to_vec(alloc)?)?;
    for answer in case.answers {
        assert_eq!(rt; sink.write(&BYTES), *answer);
    }
    assert_eq!(rt; sink.write(&[]), Ok(0));
    assert_eq!(rt; sink.flush(), Ok(()));
    assert_eq!(rt; sink.bytes(), case.taken);
    Ok(())
}

#[test]
fn a_memory_sink_takes_up_to_its_room(rt: HostRuntime) -> Result<(), Fail> {
    let cases = [
        Writes {
            room: 100,
            most: 3,
            fail: &[],
            answers: &[Ok(3)],
            taken: &[10, 20, 30],
        },
        // What room is left, and then none.
        Writes {
            room: 7,
            most: 9,
            fail: &[],
            answers: &[Ok(5), Ok(2), Err(Failed), Err(Failed)],
            taken: &[10, 20, 30, 40, 50, 10, 20],
        },
        Writes {
            room: 0,
            most: 9,
            fail: &[],
            answers: &[Err(Failed)],
            taken: &[],
        },
    ];
    for case in &cases {
        assert_writes(rt.alloc(), &rt, case)?;
    }
    Ok(())
}

#[test]
fn a_memory_sink_fails_at_planned_calls(rt: HostRuntime) -> Result<(), Fail> {
    let alloc = rt.alloc();
    // A most of 0 counts as 1.
    let case = Writes {
        room: 100,
        most: 0,
        fail: &[2],
        answers: &[Ok(1), Err(Failed), Ok(1)],
        taken: &[10, 10],
    };
    assert_writes(alloc, &rt, &case)?;
    let mut sink = MemorySink::new(alloc, 1, 1, [1].to_vec(alloc)?)?;
    assert_eq!(rt; sink.flush(), Err(Failed));
    assert_eq!(rt; sink.flush(), Ok(()));
    Ok(())
}

#[test]
fn a_piece_is_written_whole_or_up_to_the_write_that_failed(rt: HostRuntime) -> Result<(), Fail> {
    let alloc = rt.alloc();
    let mut sink = MemorySink::new(alloc, 100, 2, [5, 6].to_vec(alloc)?)?;
    assert_eq!(rt; write_all(&mut sink, &BYTES), Ok(()));
    assert_eq!(rt; write_all(&mut sink, &BYTES), Err(Failed));
    assert_eq!(rt; sink.bytes(), [10, 20, 30, 40, 50, 10, 20].as_slice());
    assert_eq!(rt; sink.flush(), Err(Failed), "the call behind the failed one");
    assert_eq!(rt; sink.flush(), Ok(()));
    Ok(())
}

#[test]
fn a_source_over_files_fails_where_the_system_does(rt: HostRuntime) {
    let mut buf = [1; 4];
    let mut source = StdSource::new(&rt);
    assert_eq!(rt; source.read(&mut buf), Err(Failed), "nothing is open");
    assert_eq!(rt; source.start(Some("/dev/zero")), Ok(()));
    assert_eq!(rt; source.read(&mut buf), Ok(4));
    assert_eq!(rt; buf, [0; 4]);
    assert_eq!(rt; source.start(Some("/no such file")), Err(Failed));
    assert_eq!(rt;
        source.read(&mut buf),
        Err(Failed),
        "what was open is closed"
    );
    assert_eq!(rt; source.start(Some("/")), Ok(()));
    assert_eq!(rt;
        source.read(&mut buf),
        Err(Failed),
        "a folder can't be read"
    );
    assert_eq!(rt; source.start(Some("/dev/null")), Ok(()));
    assert_eq!(rt; source.read(&mut buf), Ok(0));
    assert_eq!(rt; source.start(None), Ok(()));
}

/// Standard output that takes so many bytes, is interrupted at its second write, and fails from the
/// fourth on.
#[derive(Drop)]
struct Output {
    writes: Cell<u32>,
    takes: usize,
}

impl Print for Output {
    fn print<D: Display + Drop>(&self, _value: D) -> io::Result<()> {
        Ok(())
    }

    fn println<D: Display + Drop>(&self, _value: D) -> io::Result<()> {
        Ok(())
    }

    fn write_all(&self, _bytes: &[u8]) -> io::Result<()> {
        Ok(())
    }

    fn write_some(&self, bytes: &[u8]) -> io::Result<usize> {
        let writes = self.writes.get().saturating_add(1);
        self.writes.set(writes);
        match writes {
            2 => Err(io::Error::from(io::ErrorKind::Interrupted)),
            4 => Err(io::Error::from(io::ErrorKind::StorageFull)),
            _ => Ok(self.takes.min(bytes.len())),
        }
    }
}

#[test]
fn a_sink_over_standard_output_fails_where_the_system_fails_or_takes_nothing(rt: HostRuntime) {
    let output = Output {
        writes: Cell::new(0),
        takes: 3,
    };
    let mut sink = StdSink::new(&output);
    assert_eq!(rt; sink.write(&BYTES), Ok(3));
    assert_eq!(rt; sink.write(&BYTES), Ok(3), "tried again after a signal");
    assert_eq!(rt; sink.write(&BYTES), Err(Failed));
    assert_eq!(rt; sink.flush(), Ok(()));
    let stuck = Output {
        writes: Cell::new(4),
        takes: 0,
    };
    let mut sink = StdSink::new(&stuck);
    assert_eq!(rt; sink.write(&BYTES), Err(Failed), "nothing was taken");
    assert_eq!(rt; sink.write(&[]), Ok(0));
    let mut sink = StdSink::new(&rt);
    assert_eq!(rt; write_all(&mut sink, &[]), Ok(()));
}

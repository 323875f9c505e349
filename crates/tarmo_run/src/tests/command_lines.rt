//! The words of a run.

use super::{Case, PLAIN, TWO_ANSWERS, TWO_JOBS, assert_output, run, words_of};
use crate::{WORDS_REFUSED, run as run_on_threads, run_alone};
use run_io::{MemorySink, MemorySource, NoGate, StdSource};
use std::alloc::{AllocError, Global};
use std::process::Abort;
use std::rt::Files;
use std::sync::Wait;
use std::test::Fail;
use std::thread::Threads;

// Words that are accepted: whether the run shows traces, how many clauses an attempt may learn, and
// how many attempts a job has.
const ACCEPTED: &[(&str, bool, u64, u32)] = &[
    ("", false, 18_446_744_073_709_551_615, 1),
    ("--trace", true, 18_446_744_073_709_551_615, 1),
    ("--conflicts 1", false, 1, 1),
    ("--conflicts 64", false, 64, 1),
    (
        "--conflicts 18446744073709551615",
        false,
        18_446_744_073_709_551_615,
        1,
    ),
    ("--attempts 1", false, 18_446_744_073_709_551_615, 1),
    ("--attempts 64", false, 18_446_744_073_709_551_615, 64),
    ("--trace --conflicts 7 --attempts 2", true, 7, 2),
    ("--attempts 2 --conflicts 7 --trace", true, 7, 2),
    ("--conflicts 7 --trace --attempts 2", true, 7, 2),
    ("--attempts 2 --trace", true, 18_446_744_073_709_551_615, 2),
    ("--attempts 2 --conflicts=7", false, 7, 2),
    ("--workers 8 --first", false, 18_446_744_073_709_551_615, 1),
    ("-- name", false, 18_446_744_073_709_551_615, 1),
];

const REFUSED: &[&str] = &[
    "--workers 0",
    "--workers 65",
    "--conflicts 0",
    "--attempts 65",
    "--fast",
    "--help",
    "--first --first",
    "name name",
    "--sum 1 --trace",
];

// These words are accepted, and the board has their rules.
fn assert_accepted(
    alloc: Global,
    rt: &impl Abort,
    words: &str,
    trace: bool,
    conflicts: u64,
    attempts: u32,
) -> Result<(), AllocError> {
    let case = Case {
        words,
        text: "p inccnf\n0\na 0\n",
        ..PLAIN
    };
    let run = run(alloc, &case)?;
    let output = if trace {
        "j 1 UNSATISFIABLE\nf 0\nt 2 0 1 0\nend 1\n"
    } else {
        "j 1 UNSATISFIABLE\nf 0\nend 1\n"
    };
    assert_output(rt, &run, output, 0);
    let Some(board) = &run.board else {
        panic!(rt; "no board: {words}");
    };
    assert_eq!(rt; board.rules().conflicts, conflicts, "{words}");
    assert_eq!(rt; board.rules().attempts, attempts, "{words}");
    Ok(())
}

#[test]
fn accepted_words_are_the_rules_of_the_board(rt: HostRuntime) -> Result<(), Fail> {
    for (words, trace, conflicts, attempts) in ACCEPTED {
        assert_accepted(rt.alloc(), &rt, words, *trace, *conflicts, *attempts)?;
    }
    Ok(())
}

// These words are refused, and nothing is read or written: the same source then gives its whole
// text.
fn assert_refused<R: Threads + Wait + Sync + Abort>(
    alloc: Global,
    rt: &R,
    line: &str,
) -> Result<(), AllocError> {
    let words = words_of(alloc, line)?;
    let bytes = TWO_JOBS.as_bytes().to_vec(alloc)?;
    let mut source = MemorySource::new(bytes, Vec::new(alloc), Vec::new(alloc));
    let mut sink = MemorySink::new(alloc, 1000, 1000, Vec::new(alloc))?;
    let refused = run_alone(alloc, &words, &mut source, &mut sink);
    assert_eq!(rt; refused.status, WORDS_REFUSED, "{line}");
    assert!(rt; refused.board.is_none(), "{line}");
    let refused = run_on_threads(rt, alloc, &words, &mut source, &mut sink, &NoGate);
    assert_eq!(rt; refused.status, WORDS_REFUSED, "{line}");
    assert!(rt; refused.board.is_none(), "{line}");
    assert_eq!(rt; sink.bytes(), b"".as_slice(), "{line}");
    let finish = run_alone(alloc, &[], &mut source, &mut sink);
    assert_eq!(rt; finish.status, 0);
    assert_eq!(rt; sink.bytes(), TWO_ANSWERS.as_bytes());
    Ok(())
}

#[test]
fn other_words_are_refused(rt: HostRuntime) -> Result<(), Fail> {
    for line in REFUSED {
        assert_refused(rt.alloc(), &rt, line)?;
    }
    Ok(())
}

// A file of this name, and how a run over it ends.
const FILES: &[(&str, &str, u8)] = &[
    ("-- /dev/null", "refused 1 header\n", 2),
    ("/no/such/file --workers=8", "fault read\n", 3),
    ("--first /", "fault read\n", 3),
];

// A run over a file of the system.
fn assert_file<R: Abort + Files + Input>(
    alloc: Global,
    rt: &R,
    line: &str,
    output: &str,
    status: u8,
) -> Result<(), AllocError> {
    let words = words_of(alloc, line)?;
    let mut source = StdSource::new(rt);
    let mut sink = MemorySink::new(alloc, 1000, 1000, Vec::new(alloc))?;
    let finish = run_alone(alloc, &words, &mut source, &mut sink);
    assert_eq!(rt; sink.bytes(), output.as_bytes(), "{line}");
    assert_eq!(rt; finish.status, status, "{line}");
    Ok(())
}

#[test]
fn the_file_of_the_words_is_read(rt: HostRuntime) -> Result<(), Fail> {
    for (line, output, status) in FILES {
        assert_file(rt.alloc(), &rt, line, output, *status)?;
    }
    Ok(())
}

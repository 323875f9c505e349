//! Runs on many threads: the same outputs with any number of workers.

use super::faults::{SINK_FAILS, SOURCE_FAILS};
use super::outcomes::{GREATEST, PIGEONS, SPENT, TRACED, UP_TO_THE_END};
use super::texts::{ACCEPTED, REFUSED};
use super::{Case, Finished, PLAIN, TWO_ANSWERS, assert_output, assert_settled, words_of};
use crate::run;
use entry_core::Outcome;
use run_io::{Gate, MemorySink, MemorySource, NoGate};
use std::alloc::{AllocError, Global};
use std::process::Abort;
use std::sync::Wait;
use std::test::Fail;
use std::thread::Threads;

pub(super) const WORKERS: &[&str] = &["--workers 1", "--workers 2", "--workers 4", "--workers 8"];

// The words of a command line behind those of the workers.
fn words_with(alloc: Global, workers: &str, line: &str) -> Result<Vec<String>, AllocError> {
    let mut words = words_of(alloc, workers)?;
    for word in words_of(alloc, line)? {
        words.push(word)?;
    }
    Ok(words)
}

// A run of the case on these workers, through this gate.
pub(super) fn run_through<R: Threads + Wait + Sync, G: Gate>(
    rt: &R,
    alloc: Global,
    workers: &str,
    case: &Case,
    gate: &G,
) -> Result<Finished, AllocError> {
    let words = words_with(alloc, workers, case.words)?;
    let text = case.text.as_bytes().to_vec(alloc)?;
    let cuts = case.cuts.to_vec(alloc)?;
    let source_fails = case.source_fails.to_vec(alloc)?;
    let sink_fails = case.sink_fails.to_vec(alloc)?;
    let mut source = MemorySource::new(text, cuts, source_fails);
    let mut sink = MemorySink::new(alloc, case.room, case.most, sink_fails)?;
    let finish = run(rt, alloc, &words, &mut source, &mut sink, gate);
    let taken = sink.bytes().to_vec(alloc)?;
    Ok(Finished {
        status: finish.status,
        board: finish.board,
        taken,
    })
}

pub(super) fn run_on<R: Threads + Wait + Sync>(
    rt: &R,
    alloc: Global,
    workers: &str,
    case: &Case,
) -> Result<Finished, AllocError> {
    run_through(rt, alloc, workers, case, &NoGate)
}

// The run on these workers shows what it must.
pub(super) fn assert_on<R: Threads + Wait + Sync + Abort>(
    rt: &R,
    alloc: Global,
    workers: &str,
    case: &Case,
) -> Result<(), AllocError> {
    let run = run_on(rt, alloc, workers, case)?;
    assert_output(rt, &run, case.output, case.status);
    assert_settled(rt, &run, case.outcomes, case.output);
    Ok(())
}

// The run shows what it must, with any number of workers.
fn assert_on_all<R: Threads + Wait + Sync + Abort>(
    rt: &R,
    alloc: Global,
    case: &Case,
) -> Result<(), AllocError> {
    for workers in WORKERS {
        assert_on(rt, alloc, workers, case)?;
    }
    Ok(())
}

// The text has this output and this status, with any number of workers.
fn assert_text<R: Threads + Wait + Sync + Abort>(
    rt: &R,
    alloc: Global,
    text: &str,
    output: &str,
    status: u8,
) -> Result<(), AllocError> {
    for workers in WORKERS {
        let case = Case { text, ..PLAIN };
        let run = run_on(rt, alloc, workers, &case)?;
        assert_output(rt, &run, output, status);
    }
    Ok(())
}

#[test]
fn texts_have_the_same_outputs_on_any_number_of_workers(rt: HostRuntime) -> Result<(), Fail> {
    let alloc = rt.alloc();
    for (text, output) in ACCEPTED {
        assert_text(&rt, alloc, text, output, 0)?;
    }
    for (text, output) in REFUSED {
        assert_text(&rt, alloc, text, output, 2)?;
    }
    Ok(())
}

// A text byte by byte, and cut in the middle of its first line.
const CUT: &[&[usize]] = &[&[1; 27], &[5]];

#[test]
fn a_text_in_pieces_has_the_same_output_on_any_number_of_workers(
    rt: HostRuntime,
) -> Result<(), Fail> {
    for cuts in CUT {
        let case = Case {
            text: "p inccnf\n1 2 0\n-1 0\na -2 0\n",
            cuts,
            output: "j 1 UNSATISFIABLE\nf -2 0\nend 1\n",
            outcomes: &[Outcome::Refuted],
            ..PLAIN
        };
        assert_on_all(&rt, rt.alloc(), &case)?;
    }
    Ok(())
}

#[test]
fn the_jobs_are_those_before_the_end_or_a_wrong_place_on_any_number_of_workers(
    rt: HostRuntime,
) -> Result<(), Fail> {
    for case in UP_TO_THE_END {
        assert_on_all(&rt, rt.alloc(), case)?;
    }
    Ok(())
}

#[test]
fn the_greatest_variable_may_be_asked_on_any_number_of_workers(
    rt: HostRuntime,
) -> Result<(), Fail> {
    assert_on_all(&rt, rt.alloc(), &GREATEST)?;
    Ok(())
}

// The trace goes on behind the clauses, and ends in the clause of the part's negated literals.
#[test]
fn a_trace_goes_on_behind_the_clauses_on_any_number_of_workers(
    rt: HostRuntime,
) -> Result<(), Fail> {
    let case = Case {
        words: "--trace",
        text: "p inccnf\n1 0\n-1 2 0\na -2 0\n",
        ..PLAIN
    };
    for workers in WORKERS {
        let run = run_on(&rt, rt.alloc(), workers, &case)?;
        let front = b"j 1 UNSATISFIABLE\nf -2 0\nt 3 2 0 1 2 0\n";
        assert!(&rt; run.taken.starts_with(front), "{workers}");
        assert!(&rt; run.taken.ends_with(b" 0\nend 1\n"), "{workers}");
    }
    Ok(())
}

#[test]
fn traces_are_written_on_any_number_of_workers(rt: HostRuntime) -> Result<(), Fail> {
    let alloc = rt.alloc();
    for case in TRACED {
        assert_on_all(&rt, alloc, case)?;
    }
    Ok(())
}

#[test]
fn faults_are_told_on_any_number_of_workers(rt: HostRuntime) -> Result<(), Fail> {
    let alloc = rt.alloc();
    for case in SOURCE_FAILS {
        assert_on_all(&rt, alloc, case)?;
    }
    Ok(())
}

// The sink takes so many bytes of the answers to two jobs, and each job is settled, if only by
// being cancelled.
fn assert_front<R: Threads + Wait + Sync + Abort>(
    rt: &R,
    alloc: Global,
    case: &Case,
    size: usize,
) -> Result<(), AllocError> {
    for workers in WORKERS {
        let run = run_on(rt, alloc, workers, case)?;
        let taken = run.taken.as_slice();
        assert_eq!(rt; taken.len(), size, "{size} bytes");
        assert!(rt; TWO_ANSWERS.as_bytes().starts_with(taken), "{size} bytes");
        assert_eq!(rt; run.status, case.status, "{size} bytes");
        assert_all_settled(rt, &run);
    }
    Ok(())
}

fn assert_all_settled(rt: &impl Abort, run: &Finished) {
    let Some(board) = &run.board else {
        panic!(rt; "no board");
    };
    for job in 1..=board.jobs() {
        assert!(rt; board.outcome(job).is_ok(), "job {job}");
    }
}

#[test]
fn a_failing_sink_takes_a_front_on_any_number_of_workers(rt: HostRuntime) -> Result<(), Fail> {
    for (cuts, most, sink_fails, size, status, _) in SINK_FAILS {
        let case = Case {
            cuts,
            most: *most,
            sink_fails,
            status: *status,
            ..PLAIN
        };
        assert_front(&rt, rt.alloc(), &case, *size)?;
    }
    Ok(())
}

#[test]
fn a_job_is_given_up_after_its_attempts_on_any_number_of_workers(
    rt: HostRuntime,
) -> Result<(), Fail> {
    let case = Case {
        words: "--conflicts 1",
        text: PIGEONS,
        output: "j 1 UNKNOWN\nend 1\n",
        status: 1,
        outcomes: SPENT,
        ..PLAIN
    };
    assert_on_all(&rt, rt.alloc(), &case)?;
    Ok(())
}

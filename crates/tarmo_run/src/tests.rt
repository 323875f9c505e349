//! Whole runs over a source and a sink in memory.

mod beside;
mod command_lines;
mod dialogue;
mod faults;
mod named;
mod outcomes;
mod sides;
mod sums;
mod texts;

use crate::run_alone;
use board_core::Board;
use entry_core::Outcome;
use run_io::{MemorySink, MemorySource};
use std::alloc::{AllocError, Global};
use std::process::Abort;

const TWO_JOBS: &str = "p inccnf\n1 0\na 0\n-1 0\na 0\n";

const TWO_ANSWERS: &str = "j 1 SATISFIABLE\nv 1 0\nj 2 UNSATISFIABLE\nf 0\nend 2\n";

const NONE: &[Outcome] = &[];

const FIRST: &[Outcome] = &[Outcome::Model];

const BOTH: &[Outcome] = &[Outcome::Model, Outcome::Refuted];

// A run, and what it must show.
#[derive(Clone, Copy)]
struct Case<'a> {
    words: &'a str,
    text: &'a str,
    // The sizes of the first pieces of the text; the others have as many bytes as fit.
    cuts: &'a [usize],
    // The calls of the source that fail, counted from 1.
    source_fails: &'a [u64],
    // How many bytes the sink takes in all, and how many at a write.
    room: usize,
    most: usize,
    // The calls of the sink that fail, counted from 1.
    sink_fails: &'a [u64],
    // The bytes that the sink took in the end.
    output: &'a str,
    status: u8,
    // How the jobs of the board that is given back are settled.
    outcomes: &'a [Outcome],
}

// Two jobs, without words and without a call that fails.
const PLAIN: Case<'static> = Case {
    words: "",
    text: TWO_JOBS,
    cuts: &[],
    source_fails: &[],
    room: 1000,
    most: 7,
    sink_fails: &[],
    output: TWO_ANSWERS,
    status: 0,
    outcomes: BOTH,
};

// What a run does: its status, its board, and the bytes that the sink took.
#[derive(Drop)]
struct Finished {
    status: u8,
    board: Option<Board>,
    taken: Vec<u8>,
}

// The words of a command line.
fn words_of(alloc: Global, line: &str) -> Result<Vec<String>, AllocError> {
    let mut words = Vec::new(alloc);
    for word in line.split_whitespace() {
        words.push(String::from_str(alloc, word)?)?;
    }
    Ok(words)
}

// A run over the text in pieces of these sizes, and else as the case says.
fn run_in_pieces(alloc: Global, cuts: Vec<usize>, case: &Case) -> Result<Finished, AllocError> {
    let words = words_of(alloc, case.words)?;
    let text = case.text.as_bytes().to_vec(alloc)?;
    let source_fails = case.source_fails.to_vec(alloc)?;
    let sink_fails = case.sink_fails.to_vec(alloc)?;
    let mut source = MemorySource::new(text, cuts, source_fails);
    let mut sink = MemorySink::new(alloc, case.room, case.most, sink_fails)?;
    let finish = run_alone(alloc, &words, &mut source, &mut sink);
    let taken = sink.bytes().to_vec(alloc)?;
    Ok(Finished {
        status: finish.status,
        board: finish.board,
        taken,
    })
}

fn run(alloc: Global, case: &Case) -> Result<Finished, AllocError> {
    run_in_pieces(alloc, case.cuts.to_vec(alloc)?, case)
}

// The run wrote this, and has this status.
fn assert_output(rt: &impl Abort, run: &Finished, output: &str, status: u8) {
    assert_eq!(rt; run.taken.as_slice(), output.as_bytes(), "{output}");
    assert_eq!(rt; run.status, status, "{output}");
}

// The run gave back a board whose jobs are settled so.
fn assert_settled(rt: &impl Abort, run: &Finished, outcomes: &[Outcome], label: &str) {
    let Some(board) = &run.board else {
        panic!(rt; "no board: {label}");
    };
    assert_eq!(rt; board.jobs() as usize, outcomes.len(), "{label}");
    for job in 1..=board.jobs() {
        let outcome = outcomes.get(job as usize - 1).copied();
        assert_eq!(rt; board.outcome(job).ok(), outcome, "{label}: job {job}");
    }
}

// The run shows what it must.
fn assert_case(alloc: Global, rt: &impl Abort, case: &Case) -> Result<(), AllocError> {
    let run = run(alloc, case)?;
    assert_output(rt, &run, case.output, case.status);
    assert_settled(rt, &run, case.outcomes, case.output);
    Ok(())
}

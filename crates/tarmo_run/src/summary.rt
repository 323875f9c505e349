//! The summary of a run over a generated text.

ghost use Rattle.std.specs.Prelude.{◌≡◌, ◌++◌, ◌≤◌, length, IfOk, OnOk};
ghost use Rattle.entry_core.specs.Journal.{inputs_of, jobs};
ghost use Rattle.entry_core.specs.Settled.{settled};
ghost use Rattle.board_core.specs.Replies.{IsJob};
ghost use Rattle.tarmo_run.specs.Body.{clause_count, is_of, is_shown_by, number_of, numbered_line};
ghost use Rattle.tarmo_run.specs.Body.{summary_of};

use board_core::Board;
use entry_core::Outcome;
use line_tokens::print_number;
use std::alloc::{AllocError, Global};

/// How a job is settled, as a summary counts it.
#[derive(Clone, Copy, Debug, PartialEq, Eq)]
pub(crate) enum Kind {
    /// By a model.
    Satisfiable,
    /// By a refuted part of its cube.
    Unsatisfiable,
    /// It was given up.
    Unknown,
    /// By a client, or by the model of a smaller job.
    Cancelled,
    /// An attempt at it found no memory.
    NoMemory,
}

impl Kind {
    fn is_shown_by(self, outcome: Outcome) -> bool
        ensures { result ≡ is_shown_by self outcome }
    {
        match self {
            Kind::Satisfiable => matches!(outcome, Outcome::Model),
            Kind::Unsatisfiable => matches!(outcome, Outcome::Refuted),
            Kind::Unknown => matches!(outcome, Outcome::Spent),
            Kind::Cancelled => matches!(outcome, Outcome::Cancelled(_)),
            Kind::NoMemory => matches!(outcome, Outcome::Starved),
        }
    }
}

/// The lines of the summary of a board over a number's text.
pub(crate) fn summary(alloc: Global, number: u64, board: &Board) -> Result<Vec<u8>, AllocError>
    ensures { IfOk result (λ text. text.items ≡ summary_of number board.now) }
{
    let mut text = Vec::new(alloc);
    add_line(&mut text, b"sum", number)?;
    add_line(&mut text, b"clauses", clauses(board)?)?;
    add_line(&mut text, b"jobs", board.jobs() as u64)?;
    add_line(&mut text, b"satisfiable", count(board, Kind::Satisfiable))?;
    add_line(
        &mut text,
        b"unsatisfiable",
        count(board, Kind::Unsatisfiable),
    )?;
    add_line(&mut text, b"unknown", count(board, Kind::Unknown))?;
    add_line(&mut text, b"cancelled", count(board, Kind::Cancelled))?;
    add_line(&mut text, b"nomemory", count(board, Kind::NoMemory))?;
    Ok(text)
}

// Adds a word and a number, on a line.
fn add_line(text: &mut Vec<u8>, word: &[u8], number: u64) -> Result<(), AllocError>
    ensures { OnOk result (text.new.items ≡ text.old.items ++ numbered_line word.now number) }
{
    text.extend_from_slice(word)?;
    text.extend_from_slice(b" ")?;
    print_number(text, number)?;
    text.extend_from_slice(b"\n")
}

// How many clauses the jobs have together.
fn clauses(board: &Board) -> Result<u64, AllocError>
    ensures { IfOk result (λ count. count ≡ clause_count board.now) }
{
    // A board tells that its journal is legal, which keeps the limit on clauses.
    let _ = board.journal();
    let jobs = board.jobs();
    let mut job = 0;
    let mut count = 0;
    while job < jobs {
        job += 1;
        let segment = board.segment(job)?;
        count += segment.clauses.items().len() as u64;
    }
    Ok(count)
}

// How many of the jobs are settled so.
fn count(board: &Board, kind: Kind) -> u64
    ensures { result ≡ number_of kind board.now }
{
    let jobs = board.jobs();
    let mut job = 0;
    let mut count = 0;
    while job < jobs {
        job += 1;
        if is_settled_so(board, job, kind) {
            count += 1;
        }
    }
    count
}

fn is_settled_so(board: &Board, job: u32, kind: Kind) -> bool
    requires { IsJob board.now job }
    ensures { result ≡ is_of kind (settled board.now.rules board.now.journal job) }
{
    match board.outcome(job) {
        Ok(outcome) => kind.is_shown_by(outcome),
        Err(_) => false,
    }
}

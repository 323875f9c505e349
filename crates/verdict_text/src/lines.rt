//! What one line of a block says, without its line feed.

ghost use Rattle.std.specs.Prelude.{◌≡◌, map, not, IfOk};
ghost use Rattle.std.specs.Option.{option_map};
ghost use Rattle.sat_base.specs.Lit.{is_negative};
ghost use Rattle.line_tokens.specs.Token.{tokens_of};
ghost use Rattle.verdict_text.specs.Line.{are_variables_from, is_trace_line_of, job_line_of};
ghost use Rattle.verdict_text.specs.Line.{lits_of_tokens, model_line_of, part_line_of, status_of};

use line_tokens::{cut_at, is_decimal, lits_then_zero, read_number};
use sat_base::{Assign, Cube, Lit, is_strictly_ascending};
use std::alloc::{AllocError, Global};

/// What the first line of a block says of its job.
#[derive(Clone, Copy, Debug, PartialEq, Eq)]
pub enum Status {
    /// A model follows.
    Satisfiable,
    /// A refuted part follows.
    Unsatisfiable,
    /// Every attempt spent its budget.
    Unknown,
    /// The job was cancelled.
    Cancelled,
    /// An attempt found no memory.
    NoMemory,
}

/// The first line of a block.
#[derive(Clone, Copy, Debug, PartialEq, Eq)]
pub struct JobLine {
    /// The number of the job, `None` for 0 and above 18446744073709551615, which no job has.
    pub number: Option<u64>,
    pub status: Status,
}

#[tactic(auto, unfolding(crate::specs::Line::status_of))]
fn read_status(token: &[u8]) -> Option<Status>
    ensures { result ≡ status_of token.now }
{
    if token == b"SATISFIABLE".as_slice() {
        return Some(Status::Satisfiable);
    }
    if token == b"UNSATISFIABLE".as_slice() {
        return Some(Status::Unsatisfiable);
    }
    if token == b"UNKNOWN".as_slice() {
        return Some(Status::Unknown);
    }
    if token == b"CANCELLED".as_slice() {
        return Some(Status::Cancelled);
    }
    if token == b"NOMEMORY".as_slice() {
        return Some(Status::NoMemory);
    }
    None
}

/// The first line of a block: `j N` and one of `SATISFIABLE`, `UNSATISFIABLE`, `UNKNOWN`,
/// `CANCELLED` and `NOMEMORY`, with one space between two tokens and N in decimal digits without
/// leading zeros. `None` where it isn't written so.
pub fn read_job_line(line: &[u8]) -> Option<JobLine>
    ensures { result ≡ job_line_of line.now }
{
    let Some((letter, tokens)) = cut_at(line, b' ') else {
        return None;
    };
    if letter != b"j".as_slice() {
        return None;
    }
    let Some((number, word)) = cut_at(tokens, b' ') else {
        return None;
    };
    if !is_decimal(number) {
        return None;
    }
    if let Some((_, _)) = cut_at(word, b' ') {
        return None;
    }
    let Some(status) = read_status(word) else {
        return None;
    };
    Some(JobLine {
        number: read_number(number),
        status,
    })
}

// The literals of a line that begins with this letter.
fn read_lits(alloc: Global, letter: u8, line: &[u8]) -> Result<Option<Vec<Lit>>, AllocError>
    ensures { IfOk result
        (λ found. option_map (λ lits. lits.items) found
        ≡ lits_of_tokens letter (tokens_of line.now)) }
{
    let Some((first, tokens)) = cut_at(line, b' ') else {
        return Ok(None);
    };
    if first != [letter].as_slice() {
        return Ok(None);
    }
    lits_then_zero(alloc, tokens)
}

// Whether the literals are of the variables 1, 2 and so on.
fn are_of_all_variables(lits: &[Lit]) -> bool
    ensures { result ≡ are_variables_from 1 lits.now }
{
    for (index, lit) in lits.iter().enumerate() {
        if lit.var() as usize != index + 1 {
            return false;
        }
    }
    true
}

// For each literal the value of its variable that makes it true.
fn values_of(alloc: Global, lits: &[Lit]) -> Result<Vec<bool>, AllocError>
    ensures { IfOk result (λ values. values.items ≡ map (λ lit. not (is_negative lit)) lits.now) }
{
    let mut values = Vec::with_capacity(alloc, lits.len())?;
    for lit in lits {
        values.push(!lit.is_negative())?;
    }
    Ok(values)
}

/// The model that a line writes: `v`, the literals of the variables 1, 2 and so on with the sign of
/// their value, and `0`. `None` where it isn't written so.
pub fn read_model_line(alloc: Global, line: &[u8]) -> Result<Option<Assign>, AllocError>
    ensures { IfOk result (λ found. found ≡ model_line_of line.now) }
{
    let Some(lits) = read_lits(alloc, b'v', line)? else {
        return Ok(None);
    };
    if !are_of_all_variables(&lits) {
        return Ok(None);
    }
    Ok(Some(Assign::of(values_of(alloc, &lits)?)))
}

/// The refuted part that a line writes: `f`, literals in strictly ascending order, and `0`. `None`
/// where it isn't written so.
pub fn read_part_line(alloc: Global, line: &[u8]) -> Result<Option<Cube>, AllocError>
    ensures { IfOk result (λ found. found ≡ part_line_of line.now) }
{
    let Some(lits) = read_lits(alloc, b'f', line)? else {
        return Ok(None);
    };
    if !is_strictly_ascending(&lits) {
        return Ok(None);
    }
    Ok(Some(Cube::of_ascending(lits)))
}

/// Whether a line belongs to a trace: its first token is `t`.
pub fn is_trace_line(line: &[u8]) -> bool
    ensures { result ≡ is_trace_line_of line.now }
{
    match cut_at(line, b' ') {
        None => line == b"t".as_slice(),
        Some((letter, _)) => letter == b"t".as_slice(),
    }
}

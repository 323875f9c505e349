//! The audit of an output, line by line.

ghost use Rattle.std.specs.Prelude.{◌≡◌, ◌<◌, ◌+◌, ◌^◌, ◌≢◌, ◌⊎◌, length, IfOk, MatchResult, Ok};
ghost use Rattle.std.specs.Prelude.{Err};
ghost use Rattle.verdict_audit.specs.Audit.{Audits, Ends, Finds, HasJob, Steps, found, is_beyond};
ghost use Rattle.verdict_audit.specs.Audit.{start};
ghost use Rattle.verdict_audit.specs.Problem.{IsSpare};
ghost use Rattle.verdict_audit.specs.declared.findings.Wrong.TheVariants as wrong;
ghost use Rattle.line_tokens.specs.Token.{lines_of};

use crate::findings::Wrong;
use crate::judging::{close, take_line};
use crate::places::{Place, Tally};
use crate::problem::Problem;
use crate::{Finding, Flaw};
use line_tokens::cut_at;
use std::alloc::{AllocError, Global};
use trace_core::Checker;

/// The greatest number of bytes of a text and of an output.
const MOST_BYTES: usize = 4_294_967_296;

// Whether the byte behind the greatest length stands among so many that follow so many.
fn is_beyond(before: usize, size: usize) -> bool
    requires { before + size < 2 ^ 64 }
    ensures { result ≡ is_beyond before size }
{
    before + size > MOST_BYTES
}

// What is found where this is wrong at that line.
fn found(number: u64, why: Wrong) -> Result<Finding, AllocError>
    ensures value { IfOk result (λ finding. finding ≡ found number why) }
    ensures told { IfOk result (λ _. why ≢ wrong.Memory) }
{
    match why {
        Wrong::Line(flaw) => Ok(Finding::Bad(number, flaw)),
        Wrong::Unproved => Ok(Finding::Bad(number.saturating_sub(1), Flaw::Trace)),
        Wrong::Memory => Err(AllocError),
    }
}

// Takes a line that so many bytes stand before.
fn step(
    alloc: Global,
    problem: &Problem,
    tally: &mut Tally,
    spare: &mut Checker,
    place: Place,
    before: usize,
    line: &[u8],
) -> Result<Place, Wrong>
    requires small { before + (length line.now + 1) < 2 ^ 64 }
    requires job { HasJob problem.now tally.old place }
    requires spare { IsSpare problem.now spare.old }
    ensures outcome { MatchResult result
        (λ next. Steps problem.now tally.old place before line.now
        (Ok (record { tally = tally.new; place = next }))) (λ why. (why ≡ wrong.Memory)
        ⊎ Steps problem.now tally.old place before line.now (Err why)) }
    ensures job { IfOk result (λ next. HasJob problem.now tally.new next) }
    ensures spare { IfOk result (λ _. IsSpare problem.now spare.new) }
{
    let place = close(alloc, spare, place, line)?;
    if is_beyond(before, line.len() + 1) {
        return Err(Wrong::Line(Flaw::TooLong));
    }
    take_line(alloc, problem, tally, spare, place, line)
}

// Takes the end of the output, behind these bytes without a line feed.
fn end(
    alloc: Global,
    tally: Tally,
    mut spare: Checker,
    place: Place,
    before: usize,
    rest: &[u8],
) -> Result<Finding, Wrong>
    requires { before + length rest.now < 2 ^ 64 }
    ensures { MatchResult result (λ finding. Ends tally place before rest.now (Ok finding))
        (λ why. (why ≡ wrong.Memory) ⊎ Ends tally place before rest.now (Err why)) }
{
    let place = close(alloc, &mut spare, place, rest)?;
    if is_beyond(before, rest.len()) {
        return Err(Wrong::Line(Flaw::TooLong));
    }
    match place {
        Place::End if rest.is_empty() => Ok(Finding::Good {
            proved: tally.proved,
            unproved: tally.unproved,
        }),
        _ => Err(Wrong::Line(Flaw::Form)),
    }
}

// Audits the lines of an output.
fn audit_lines(alloc: Global, problem: &Problem, output: &[u8]) -> Result<Finding, AllocError>
    ensures { IfOk result (λ finding. Finds problem.now start 1 0 (lines_of output.now) finding) }
{
    let mut tally = Tally {
        begun: 0,
        proved: 0,
        unproved: 0,
    };
    let mut spare = Checker::new(alloc);
    let mut place = Place::Block;
    let mut number = 1;
    let mut before = 0;
    let mut rest = output;
    while let Some((line, more)) = cut_at(rest, b'\n') {
        place = match step(alloc, problem, &mut tally, &mut spare, place, before, line) {
            Ok(next) => next,
            Err(why) => return found(number, why),
        };
        number += 1;
        before += line.len() + 1;
        rest = more;
    }
    match end(alloc, tally, spare, place, before, rest) {
        Ok(good) => Ok(good),
        Err(why) => found(number, why),
    }
}

/// Audits an output that was written under `--trace` for an iCNF text: `Good` exactly where each
/// line is right, otherwise the first wrong line and why.
///
/// The blocks of the jobs 1, 2 and so on must be written as `verdict_text` writes them. A model
/// must have exactly the job's variables and make each clause of the job and each literal of its
/// cube true. A part must have literals of the job's cube alone, and below it a trace: each step ok
/// over the job's clauses and the steps before it, and the last one's clause that of the part's
/// negated literals. One last line must follow. `end` and `refused` must say what the text says,
/// behind the blocks of all jobs; `fault read` and `memory` may stand behind any number of blocks.
///
/// Takes memory for the text's clauses, for a checker of them and for one block, and time in
/// proportion to the text, to the output and, for each block with a model, to the literals of the
/// job's clauses.
pub fn audit(alloc: Global, icnf: &[u8], output: &[u8]) -> Result<Finding, AllocError>
    ensures { IfOk result (λ finding. Audits icnf.now output.now finding) }
{
    if icnf.len() > MOST_BYTES {
        return Ok(Finding::Bad(1, Flaw::TooLong));
    }
    let problem = Problem::of(alloc, icnf)?;
    audit_lines(alloc, &problem, output)
}

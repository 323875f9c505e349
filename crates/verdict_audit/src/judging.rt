//! What one line of an output comes to.

ghost use Rattle.std.specs.Prelude.{◌≡◌, ◌≤◌, ◌<◌, ◌+◌, ◌-◌, ◌⊎◌, ◌↔◌, ◌&&◌, if◌then◌else◌, nat_lt};
ghost use Rattle.std.specs.Prelude.{length, All, Contains, IfOk, IsTrue, MatchResult, Ok};
ghost use Rattle.std.specs.Prelude.{Err};
ghost use Rattle.sat_base.specs.Lit.{IsLitSet};
ghost use Rattle.verdict_text.specs.Line.{job_line_of, model_line_of, part_line_of};
ghost use Rattle.verdict_text.specs.Text.{is_number};
ghost use Rattle.verdict_audit.specs.Audit.{Closes, HasJob, JudgesLine, JudgesPart, JudgesStep};
ghost use Rattle.verdict_audit.specs.Audit.{State, at_job_line, at_model, begun, one_more};
ghost use Rattle.verdict_audit.specs.Audit.{with_proved, with_unproved, tags_of};
ghost use Rattle.verdict_audit.specs.Case.{Case, clauses_of, cube_of, inputs_of, variables_of};
ghost use Rattle.verdict_audit.specs.Problem.{IsSpare};
ghost use Rattle.trace_text.specs.Text.{next_step};
ghost use Rattle.verdict_audit.specs.declared.places.Place.TheVariants as place;
ghost use Rattle.verdict_audit.specs.declared.places.Tally.{Tally};
ghost use Rattle.verdict_audit.specs.declared.findings.Flaw.TheVariants as flaw;
ghost use Rattle.verdict_audit.specs.declared.findings.Wrong.TheVariants as wrong;

use crate::Flaw;
use crate::findings::Wrong;
use crate::last_line::take_last_line;
use crate::places::{Place, Proof, Tally};
use crate::problem::Problem;
use sat_base::Lit;
use std::alloc::Global;
use std::mem;
use trace_core::Checker;
use trace_text::{TraceFault, read_step};
use verdict_text::{
    JobLine, Status, is_trace_line, read_job_line, read_model_line, read_part_line,
};

// One more. The count stands still at its last number.
fn one_more(count: u32) -> u32
    ensures { result ≡ one_more count }
{
    count.saturating_add(1)
}

// Counts a block that has begun.
fn counted(tally: Tally, is_proved: bool) -> Tally
    requires { tally.begun < 18446744073709551615 }
    ensures { result ≡ (if is_proved then with_proved tally else with_unproved tally) }
{
    let begun = tally.begun + 1;
    if is_proved {
        Tally {
            begun,
            proved: one_more(tally.proved),
            unproved: tally.unproved,
        }
    } else {
        Tally {
            begun,
            proved: tally.proved,
            unproved: one_more(tally.unproved),
        }
    }
}

// Takes the status of the next job.
fn begin(tally: &mut Tally, status: Status) -> Place
    requires { tally.old.begun < 18446744073709551615 }
    ensures { record { tally = tally.new; place = result } ≡ begun tally.old status }
{
    match status {
        Status::Satisfiable => {
            *tally = counted(*tally, true);
            Place::Model
        }
        Status::Unsatisfiable => {
            *tally = counted(*tally, true);
            Place::Part
        }
        Status::Unknown | Status::Cancelled | Status::NoMemory => {
            *tally = counted(*tally, false);
            Place::Block
        }
    }
}

// Whether a first line is that of the next job, and there is such a job.
fn is_next(jobs: u64, begun: u64, line: &JobLine) -> bool
    ensures { result ≡ (is_number line.now.number (begun + 1) && nat_lt begun jobs) }
{
    match line.number {
        None => false,
        Some(number) => begun < jobs && number == begun + 1,
    }
}

// Takes the first line of the next job's block, or a last line.
fn take_job_line(problem: &Problem, tally: &mut Tally, line: &[u8]) -> Result<Place, Flaw>
    ensures taken { MatchResult result
        (λ next. at_job_line problem.now tally.old line.now (job_line_of line.now)
        ≡ Ok (record { tally = tally.new; place = next }))
        (λ why. at_job_line problem.now tally.old line.now (job_line_of line.now)
        ≡ Err (wrong.Line why)) }
    ensures job { IfOk result (λ next. HasJob problem.now tally.new next) }
{
    let Some(found) = read_job_line(line) else {
        return take_last_line(problem, *tally, line);
    };
    if !is_next(problem.jobs(), tally.begun, &found) {
        return Err(Flaw::Number);
    }
    Ok(begin(tally, found.status))
}

// Takes the model of the job whose block has begun.
fn take_model(alloc: Global, problem: &Problem, tally: Tally, line: &[u8]) -> Result<Place, Wrong>
    requires there { 0 < tally.begun }
    requires within { tally.begun ≤ length problem.now.queries }
    ensures outcome { MatchResult result
        (λ next. at_model problem.now tally (model_line_of line.now)
        ≡ Ok (record { tally = tally; place = next })) (λ why. (why ≡ wrong.Memory)
        ⊎ (at_model problem.now tally (model_line_of line.now) ≡ Err why)) }
    ensures block { IfOk result (λ next. next ≡ place.Block) }
{
    let Some(model) = read_model_line(alloc, line)? else {
        return Err(Wrong::Line(Flaw::Form));
    };
    if model.values().len() != problem.variables(tally.begun) as usize {
        return Err(Wrong::Line(Flaw::Form));
    }
    if !problem.is_satisfied(tally.begun, &model) {
        return Err(Wrong::Line(Flaw::Model));
    }
    Ok(Place::Block)
}

// Whether each of the literals stands in the cube. Both ascend, so one pass over the cube finds
// them.
fn is_within(part: &[Lit], cube: &[Lit]) -> bool
    requires part { IsLitSet part.now }
    requires cube { IsLitSet cube.now }
    ensures { IsTrue result ↔ All (Contains cube.now) part.now }
{
    let mut at = 0;
    for lit in cube {
        if at < part.len() && part[at] == *lit {
            at += 1;
        }
    }
    at == part.len()
}

// Takes the part of the job whose block has begun, and the spare checker for its proof.
fn take_part(
    alloc: Global,
    problem: &Problem,
    tally: Tally,
    spare: &mut Checker,
    line: &[u8],
) -> Result<Place, Wrong>
    requires there { 0 < tally.begun }
    requires within { tally.begun ≤ length problem.now.queries }
    requires spare { IsSpare problem.now spare.old }
    ensures outcome { MatchResult result
        (λ next. JudgesPart problem.now tally (part_line_of line.now)
        (Ok (record { tally = tally; place = next }))) (λ why. (why ≡ wrong.Memory)
        ⊎ JudgesPart problem.now tally (part_line_of line.now) (Err why)) }
    ensures job { IfOk result (λ next. HasJob problem.now tally next) }
    ensures spare { IfOk result (λ _. IsSpare problem.now spare.new) }
{
    let Some(part) = read_part_line(alloc, line)? else {
        return Err(Wrong::Line(Flaw::Form));
    };
    if !is_within(part.lits(), problem.cube(tally.begun).lits()) {
        return Err(Wrong::Line(Flaw::Part));
    }
    let held = mem::replace(spare, Checker::new(alloc));
    let checker = problem.checker(alloc, tally.begun, held)?;
    Ok(Place::Step(Proof::begin(alloc, part, checker)))
}

// Takes a trace line behind the steps of this proof.
fn take_step(
    alloc: Global,
    problem: &Problem,
    tally: Tally,
    proof: Proof,
    line: &[u8],
) -> Result<Place, Wrong>
    requires job { HasJob problem.now tally (place.Step proof) }
    ensures outcome { MatchResult result
        (λ next. JudgesStep tally proof (next_step (tags_of proof.inputs) proof.steps line.now)
        (Ok (record { tally = tally; place = next }))) (λ why. (why ≡ wrong.Memory)
        ⊎ JudgesStep tally proof (next_step (tags_of proof.inputs) proof.steps line.now)
        (Err why)) }
    ensures job { IfOk result (λ next. HasJob problem.now tally next) }
{
    let step = match read_step(alloc, problem.tags(tally.begun), proof.steps(), line) {
        Ok(step) => step,
        Err(TraceFault::Memory) => return Err(Wrong::Memory),
        Err(TraceFault::Form(_)) => return Err(Wrong::Line(Flaw::Form)),
        Err(TraceFault::Order(_)) => return Err(Wrong::Line(Flaw::Trace)),
    };
    match proof.with(step)? {
        Some(more) => Ok(Place::Step(more)),
        None => Err(Wrong::Line(Flaw::Trace)),
    }
}

/// Takes a line that stands at this place.
pub(crate) fn take_line(
    alloc: Global,
    problem: &Problem,
    tally: &mut Tally,
    spare: &mut Checker,
    place: Place,
    line: &[u8],
) -> Result<Place, Wrong>
    requires job { HasJob problem.now tally.old place }
    requires spare { IsSpare problem.now spare.old }
    ensures outcome { MatchResult result
        (λ next. JudgesLine problem.now tally.old place line.now
        (Ok (record { tally = tally.new; place = next }))) (λ why. (why ≡ wrong.Memory)
        ⊎ JudgesLine problem.now tally.old place line.now (Err why)) }
    ensures job { IfOk result (λ next. HasJob problem.now tally.new next) }
    ensures spare { IfOk result (λ _. IsSpare problem.now spare.new) }
{
    match place {
        Place::Block => match take_job_line(problem, tally, line) {
            Ok(next) => Ok(next),
            Err(flaw) => Err(Wrong::Line(flaw)),
        },
        Place::Model => take_model(alloc, problem, *tally, line),
        Place::Part => take_part(alloc, problem, *tally, spare, line),
        Place::Step(proof) => take_step(alloc, problem, *tally, proof, line),
        Place::End => Err(Wrong::Line(Flaw::Form)),
    }
}

/// Ends the block of a part before a line that belongs to no trace. Its checker is the spare one
/// from then on.
pub(crate) fn close(
    alloc: Global,
    spare: &mut Checker,
    place: Place,
    line: &[u8],
) -> Result<Place, Wrong>
    ensures closed { MatchResult result (λ next. Closes place line.now (Ok next))
        (λ why. (why ≡ wrong.Memory) ⊎ Closes place line.now (Err why)) }
    ensures job { IfOk result
        (λ next. (case : Case) (tally : Tally) → HasJob case tally place → HasJob case tally next) }
    ensures spare { IfOk result
        (λ _. (case : Case) (tally : Tally)
        → HasJob case tally place → IsSpare case spare.old → IsSpare case spare.new) }
{
    match place {
        Place::Step(proof) => {
            if is_trace_line(line) {
                return Ok(Place::Step(proof));
            }
            if proof.is_refuted(alloc)? {
                *spare = proof.into_checker();
                Ok(Place::Block)
            } else {
                Err(Wrong::Unproved)
            }
        }
        other => Ok(other),
    }
}

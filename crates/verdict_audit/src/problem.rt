//! What an audit takes from an iCNF text.

ghost use Rattle.std.specs.Prelude.{◌≡◌, ◌≤◌, ◌<◌, ◌+◌, ◌-◌, ◌&&◌, [], ◌++◌, List, ℕ, All, map};
ghost use Rattle.std.specs.Prelude.{length, slice_index_or, IfOk};
ghost use Rattle.sat_base.specs.Truth.{all_true, cube_true};
ghost use Rattle.verdict_audit.specs.Audit.{tags_of};
ghost use Rattle.verdict_audit.specs.Case.{Case, case_of, clauses_of, cube_of, inputs_of};
ghost use Rattle.verdict_audit.specs.Case.{known_of_clause, variables_of};
ghost use Rattle.verdict_audit.specs.Problem.{IsJobOver, IsSpare, query_in};

use crate::taking::{Job, Taken, last_line, take_all};
use icnf_text::Reader;
use sat_base::{Assign, Clause, Cube};
use std::alloc::{AllocError, Global};
use std::marker::Model;
use trace_core::Checker;

/// The clauses and jobs of a text, and the last line of its whole output without the line feed.
/// Jobs are numbered from 1.
#[derive(Debug, Drop)]
pub(crate) struct Problem {
    clauses: Vec<Clause>,
    tags: Vec<u32>,
    jobs: Vec<Job>,
    last: Vec<u8>,
}

impl Model for Problem {
    ghost use Rattle.std.specs.Prelude.{map};
    ghost use Rattle.verdict_audit.specs.Case.{Case};
    ghost use Rattle.verdict_audit.specs.Problem.{IsKept, query_in};

    ghost Value = { Case };

    ghost view = { λ problem. record {
      clauses = problem.clauses.items;
      queries = map query_in problem.jobs.items;
      last = problem.last.items;
    } };

    ghost invariant = { λ problem. IsKept
        problem.clauses.items problem.tags.items problem.jobs.items };
}

// The statements and the first wrong place of a text.
fn read(alloc: Global, text: &[u8]) -> Result<Problem, AllocError>
    ensures { IfOk result (λ problem. problem ≡ case_of text.now) }
{
    let mut taken = Taken {
        clauses: Vec::new(alloc),
        tags: Vec::new(alloc),
        jobs: Vec::new(alloc),
        greatest: 0,
    };
    let mut reader = Reader::new(alloc);
    let fed = reader.feed(text)?;
    take_all(&mut taken, fed.statements.into_items())?;
    let ended = reader.finish()?;
    take_all(&mut taken, ended.statements.into_items())?;
    let last = last_line(alloc, ended.fault, taken.jobs.len() as u64)?;
    Ok(Problem {
        clauses: taken.clauses,
        tags: taken.tags,
        jobs: taken.jobs,
        last,
    })
}

// The job of this number.
fn job_at(jobs: &[Job], number: u64) -> &Job
    requires there { 0 < number }
    requires within { number ≤ length jobs.now }
    ensures query { query_in result.now
        ≡ slice_index_or (map query_in jobs.now) (number - 1) (record { inputs = 0; cube = [] }) }
    ensures each { (clauses : List (List ℕ)) → All (IsJobOver clauses) jobs.now
        → IsJobOver clauses result.now }
{
    &jobs[(number - 1) as usize]
}

// The checker with these clauses behind its inputs.
fn with_inputs(checker: Checker, clauses: &[Clause]) -> Result<Checker, AllocError>
    requires steps { checker.steps ≡ [] }
    requires room { length checker.inputs + length clauses.now ≤ 16777216 }
    ensures inputs { IfOk result
        (λ grown. grown.inputs ≡ checker.inputs ++ map known_of_clause clauses.now) }
    ensures steps { IfOk result (λ grown. grown.steps ≡ []) }
{
    let mut grown = checker;
    for clause in clauses {
        grown.add_input(clause, 1)?;
    }
    Ok(grown)
}

// Whether the model makes each clause true.
fn satisfies_all(model: &Assign, clauses: &[Clause]) -> bool
    ensures { result ≡ all_true model.now clauses.now }
{
    clauses.iter().all(|clause| clause.is_true(model))
}

// Whether the model makes each clause and each literal of the cube true.
fn satisfies(model: &Assign, clauses: &[Clause], cube: &Cube) -> bool
    ensures { result ≡ (all_true model.now clauses.now && cube_true model.now cube.now) }
{
    satisfies_all(model, clauses) && cube.is_true(model)
}

impl Problem {
    /// What a text says.
    pub(crate) fn of(alloc: Global, text: &[u8]) -> Result<Problem, AllocError>
        ensures { IfOk result (λ problem. problem ≡ case_of text.now) }
    {
        read(alloc, text)
    }

    /// The last line of the whole output, without its line feed.
    pub(crate) fn last(&self) -> &[u8]
        ensures { result.now ≡ self.now.last }
    {
        &self.last
    }

    /// The number of jobs.
    pub(crate) fn jobs(&self) -> u64
        ensures { result ≡ length self.now.queries }
    {
        self.jobs.len() as u64
    }

    /// The greatest variable of a job.
    pub(crate) fn variables(&self, number: u64) -> u32
        requires there { 0 < number }
        requires within { number ≤ length self.now.queries }
        ensures { result ≡ variables_of self.now number }
    {
        job_at(&self.jobs, number).variables
    }

    /// The cube of a job.
    pub(crate) fn cube(&self, number: u64) -> &Cube
        requires there { 0 < number }
        requires within { number ≤ length self.now.queries }
        ensures { result.now ≡ cube_of self.now number }
    {
        &job_at(&self.jobs, number).cube
    }

    /// Whether the model makes each clause of a job and each literal of its cube true.
    pub(crate) fn is_satisfied(&self, number: u64, model: &Assign) -> bool
        requires there { 0 < number }
        requires within { number ≤ length self.now.queries }
        ensures { result
            ≡ (all_true model.now (clauses_of self.now number) && cube_true model.now
            (cube_of self.now number)) }
    {
        let job = job_at(&self.jobs, number);
        satisfies(model, &self.clauses[..job.inputs], &job.cube)
    }

    /// Makes a checker of the input clauses of a job out of one of an earlier job, whose clauses
    /// they begin with: only what is new is added.
    pub(crate) fn checker(
        &self,
        alloc: Global,
        number: u64,
        spare: Checker,
    ) -> Result<Checker, AllocError>
        requires there { 0 < number }
        requires within { number ≤ length self.now.queries }
        requires spare { IsSpare self.now spare }
        ensures inputs { IfOk result (λ checker. checker.inputs ≡ inputs_of self.now number) }
        ensures steps { IfOk result (λ checker. checker.steps ≡ []) }
    {
        let inputs = &self.clauses[..job_at(&self.jobs, number).inputs];
        let held = spare.input_count();
        if held > inputs.len() {
            return with_inputs(Checker::new(alloc), inputs);
        }
        with_inputs(spare, &inputs[held..])
    }

    /// The tags of the input clauses of a job.
    #[tactic(auto, using(crate::proofs::CaseLemmas::tags_front))]
    pub(crate) fn tags(&self, number: u64) -> &[u32]
        requires there { 0 < number }
        requires within { number ≤ length self.now.queries }
        ensures tags { result.now ≡ tags_of (inputs_of self.now number) }
        ensures few { length result.now ≤ 16777216 }
    {
        let job = job_at(&self.jobs, number);
        &self.tags[..job.inputs]
    }
}

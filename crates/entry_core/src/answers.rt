//! Answers to a job, verdicts and outcomes.

ghost use Rattle.std.specs.Prelude.{◌≡◌};
ghost use Rattle.entry_core.specs.Outcomes.{outcome_of, outcome_of_answer};

use sat_base::{Assign, Cube};
use std::sync::Arc;
use trace_core::Steps;

/// An answer to a job.
#[derive(Debug, Drop)]
pub enum Answer {
    /// A model of the job's clauses and cube, of exactly the job's variables.
    Model(Assign),
    /// Literals of the job's cube that can't all be true, and a trace of that.
    Refuted(Cube, Steps),
}

/// How a job was settled.
#[derive(Debug, Drop)]
pub enum Verdict {
    /// By an answer.
    Answered(Arc<Answer>),
    /// By a client for 0, otherwise by a model of the earlier job of that number.
    Cancelled(u32),
    /// Every attempt spent its budget.
    Spent,
    /// An attempt found no memory.
    Starved,
}

/// A verdict without its answer.
#[derive(Clone, Copy, Debug, PartialEq, Eq)]
pub enum Outcome {
    Model,
    Refuted,
    Cancelled(u32),
    Spent,
    Starved,
}

impl Answer {
    /// Which kind of answer it is.
    pub fn outcome(&self) -> Outcome
        ensures { result ≡ outcome_of_answer self.now }
    {
        match self {
            Answer::Model(_) => Outcome::Model,
            Answer::Refuted(_, _) => Outcome::Refuted,
        }
    }
}

impl Verdict {
    /// The verdict without its answer.
    pub fn outcome(&self) -> Outcome
        ensures { result ≡ outcome_of self.now }
    {
        match self {
            Verdict::Answered(answer) => answer.outcome(),
            Verdict::Cancelled(by) => Outcome::Cancelled(*by),
            Verdict::Spent => Outcome::Spent,
            Verdict::Starved => Outcome::Starved,
        }
    }
}

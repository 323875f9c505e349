//! The journal of the concurrent solver: which entries there are, what they say, and when they are
//! legal.
//!
//! The layers above use the definitions in `specs/` (jobs and their clauses, the shared database,
//! attempts, who is settled and how, the job to take, legal journals) and the laws that make a
//! journal worth keeping: what it says stays true, and each verdict has its cause. This crate knows
//! no board, no lock, no thread and no solver.
#![tactic(auto)]

mod answers;
mod entries;
mod laws;
mod rules;
mod segments;
#[cfg(test)]
mod tests;

pub use answers::{Answer, Outcome, Verdict};
pub use entries::{Entry, Event};
pub use laws::{
    attempts_are_few, jobs_are_decided_once, large_budgets_answer, longer_journal_keeps,
    packets_are_bounded, packets_are_ok, shared_steps_follow, verdicts_have_causes,
};
pub use rules::Rules;
pub use segments::{Clauses, Segment};

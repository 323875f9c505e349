//! Ends of attempts.

use entry_core::{Answer, Clauses};
use std::sync::Arc;

/// How an attempt ends that found memory, ready to be written down.
#[derive(Debug, Drop)]
pub enum End {
    /// With an answer to its job; a refuted part has its trace.
    Answered(Arc<Answer>),
    /// With the clauses that it learnt, as many as the rules allow, and no answer.
    Spent(Arc<Clauses>),
}

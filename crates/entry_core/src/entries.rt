//! The entries of a journal.

use crate::{Answer, Clauses, Segment};
use std::sync::Arc;
use trace_core::Packet;

/// An entry of a journal: what happened, and the number of the caller that wrote it.
#[derive(Debug, Drop)]
pub struct Entry {
    pub caller: u32,
    pub event: Event,
}

/// What happened. Jobs and attempts are numbered from 1, in the order of their `Added` and `Began`
/// entries.
#[derive(Debug, Drop)]
pub enum Event {
    /// A client added a job.
    Added(Arc<Segment>),
    /// A client said that no more jobs come.
    Closed,
    /// A client cancelled a job.
    Cancelled { job: u32 },
    /// A worker began an attempt at a job.
    Began { job: u32, attempt: u32 },
    /// A worker shared a clause, with the steps that prove it.
    Shared(Arc<Packet>),
    /// An attempt used up its budget on these clauses.
    Spent { attempt: u32, learnt: Arc<Clauses> },
    /// An attempt was given up, since its job was settled.
    Dropped { attempt: u32 },
    /// An attempt answered its job.
    Decided { attempt: u32, answer: Arc<Answer> },
    /// An attempt found no memory.
    Starved { attempt: u32 },
}

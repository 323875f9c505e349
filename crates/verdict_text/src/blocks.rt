//! What a block says.

use sat_base::{Assign, Cube};
use trace_core::Steps;

/// What a block shows of its job.
#[derive(Debug, Drop)]
pub enum Shown {
    /// A model: the values of its variables, variable 1 first.
    Model(Assign),
    /// Literals of the job's cube that can't all be true, and the steps that were written for them.
    Refuted(Cube, Steps),
    /// Every attempt spent its budget.
    Unknown,
    /// The job was cancelled.
    Cancelled,
    /// An attempt found no memory.
    NoMemory,
}

/// A block: the number of its job, counted from 1, and what it shows.
#[derive(Debug, Drop)]
pub struct Printed {
    pub job: u32,
    pub shown: Shown,
}

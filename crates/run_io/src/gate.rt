//! Where a worker may be held.

use std::sync::Wait;
use std::thread::Threads;

/// What a worker passes when it has taken a job, and when it is done with it. Both calls are made
/// without a hold of the board, so that a gate may wait for other workers.
pub trait Gate: Sync {
    /// Called when the worker has taken the job.
    fn before<R: Threads + Wait + Sync>(&self, rt: &R, worker: u32, job: u32);

    /// Called when the end of the worker's attempt at the job stands in the journal.
    fn after<R: Threads + Wait + Sync>(&self, rt: &R, worker: u32, job: u32);
}

/// A gate that holds nobody.
#[derive(Clone, Copy, Debug)]
pub struct NoGate;

impl Gate for NoGate {
    fn before<R: Threads + Wait + Sync>(&self, _rt: &R, _worker: u32, _job: u32) {}

    fn after<R: Threads + Wait + Sync>(&self, _rt: &R, _worker: u32, _job: u32) {}
}

//! What a worker is to do.

/// What a worker is to do. Jobs and attempts are numbered from 1.
#[derive(Clone, Copy, Debug, PartialEq, Eq)]
pub enum Task {
    /// This attempt at this job, which begins.
    Job { job: u32, attempt: u32 },
    /// Nothing any more: no job comes, and each is settled.
    Done,
    /// Nothing for now.
    Idle,
}

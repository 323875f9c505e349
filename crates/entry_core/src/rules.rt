//! The rules of a journal.

/// The rules of a journal, which never change. Callers 1 to `clients` are clients, and the next
/// `workers` are workers.
#[derive(Clone, Copy, Debug, PartialEq, Eq)]
pub struct Rules {
    /// 1 to 16.
    pub clients: u32,
    /// 1 to 64.
    pub workers: u32,
    /// How many attempts a job has: 1 to 64.
    pub attempts: u32,
    /// How many clauses an attempt may learn: at least 1.
    pub conflicts: u64,
    /// Whether a model cancels every later job.
    pub first: bool,
    /// Whether each refuted part is kept with its trace.
    pub traces: bool,
}

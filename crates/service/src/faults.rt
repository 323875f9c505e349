//! Why a call is refused.

/// Why a try gives no outcome.
#[derive(Clone, Copy, Debug, PartialEq, Eq)]
pub enum TryFault {
    /// The turn was taken, by the pass of this number.
    Busy(u64),
    /// The job is 0 or above this number of jobs.
    NoSuchJob(u32),
    /// The job isn't settled.
    NotYet,
}

//! Why a call is refused.

use entry_core::Outcome;
use std::alloc::AllocError;

/// Why a job has no outcome.
#[derive(Clone, Copy, Debug, PartialEq, Eq)]
pub enum LookFault {
    /// The job is 0 or above this number of jobs.
    NoSuchJob(u32),
    /// The job isn't settled.
    NotYet,
}

/// Why a verdict isn't given.
#[derive(Clone, Copy, Debug, PartialEq, Eq)]
pub enum AskFault {
    /// The job is 0 or above this number of jobs.
    NoSuchJob(u32),
    /// The job isn't settled.
    NotYet,
    /// There was no memory.
    Memory,
}

/// Why a job isn't cancelled.
#[derive(Clone, Copy, Debug, PartialEq, Eq)]
pub enum CancelFault {
    /// The job is 0 or above this number of jobs.
    NoSuchJob(u32),
    /// The job is settled, with this outcome.
    Settled(Outcome),
}

/// Why a packet isn't shared.
#[derive(Clone, Copy, Debug, PartialEq, Eq)]
pub enum ShareFault {
    /// There are 4,194,304 packets.
    Full,
    /// There was no memory.
    Memory,
}

impl From<AllocError> for ShareFault {
    ghost use Rattle.std.specs.Prelude.{◌≡◌};
    ghost use Rattle.board_core.specs.declared.faults.ShareFault.TheVariants as fault;

    ghost from_gives = { λ _ given. given ≡ fault.Memory };

    fn from(_: AllocError) -> ShareFault {
        ShareFault::Memory
    }
}

/// Why a job isn't added. The first that stands is answered.
#[derive(Clone, Copy, Debug, PartialEq, Eq)]
pub enum AddFault {
    /// The entry at this place of the journal is `Closed`.
    Closed(u64),
    /// There are 1,048,576 jobs.
    TooManyJobs,
    /// There would be more than 16,777,216 clauses.
    TooManyClauses,
    /// There would be more than 33,554,432 occurrences of literals.
    TooManyLiterals,
    /// There was no memory.
    Memory,
}

impl From<AllocError> for AddFault {
    ghost use Rattle.std.specs.Prelude.{◌≡◌};
    ghost use Rattle.board_core.specs.declared.faults.AddFault.TheVariants as fault;

    ghost from_gives = { λ _ given. given ≡ fault.Memory };

    fn from(_: AllocError) -> AddFault {
        AddFault::Memory
    }
}

impl From<AllocError> for AskFault {
    ghost use Rattle.std.specs.Prelude.{◌≡◌};
    ghost use Rattle.board_core.specs.declared.faults.AskFault.TheVariants as fault;

    ghost from_gives = { λ _ given. given ≡ fault.Memory };

    fn from(_: AllocError) -> AskFault {
        AskFault::Memory
    }
}

/// An attempt came too late: its job is settled already, with this outcome.
#[derive(Clone, Copy, Debug, PartialEq, Eq)]
pub struct Late(pub Outcome);

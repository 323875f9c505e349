//! What the words of a run ask for.

use clap::error::ErrorKind;
use std::alloc::AllocError;
use thiserror::Error;

/// What the words of a run ask for.
#[derive(Debug, Drop)]
pub struct Command {
    /// How many workers there are, 1 to 64; by default 4.
    pub workers: u32,
    /// How many clauses an attempt may learn, at least 1; by default the greatest number.
    pub conflicts: u64,
    /// How many attempts a job has, 1 to 64; by default 1.
    pub attempts: u32,
    /// Whether the jobs behind the first one with a model are given up.
    pub first: bool,
    /// Whether each refuted part has its trace.
    pub trace: bool,
    /// What the run works on.
    pub work: Work,
}

/// What a run works on.
#[derive(Debug, Drop)]
pub enum Work {
    /// The jobs of a text: of the file of this name, or of standard input.
    Text(Option<String>),
    /// The jobs of the text that is generated for this number, of which the run writes a summary.
    Sum(u64),
}

/// Why words gave no command.
#[derive(Clone, Copy, Debug, PartialEq, Eq, Error)]
pub enum WordsFault {
    /// The words aren't accepted.
    #[error("tarmo: words refused")]
    Refused,
    /// Memory ran out.
    #[error("tarmo: no memory")]
    Memory,
}

impl From<clap::Error> for WordsFault {
    ghost use Rattle.std.specs.Prelude.{◌≡◌, ◌↔◌};
    ghost use Rattle.clap.specs.Words.{kind_of};
    ghost use Rattle.clap.specs.declared.error.kind.ErrorKind.TheVariants as kinds;
    ghost use Rattle.words.specs.declared.command.WordsFault.TheVariants as faults;

    ghost from_gives = { λ error fault.
        (fault ≡ faults.Memory) ↔ (kind_of error ≡ kinds.OutOfMemory) };

    fn from(error: clap::Error) -> WordsFault {
        match error.kind() {
            ErrorKind::OutOfMemory => WordsFault::Memory,
            _ => WordsFault::Refused,
        }
    }
}

impl From<AllocError> for WordsFault {
    ghost use Rattle.std.specs.Prelude.{◌≡◌};
    ghost use Rattle.words.specs.declared.command.WordsFault.TheVariants as faults;

    ghost from_gives = { λ _ fault. fault ≡ faults.Memory };

    fn from(_error: AllocError) -> WordsFault {
        WordsFault::Memory
    }
}

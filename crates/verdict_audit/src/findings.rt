//! What an audit finds.

/// What an audit finds.
#[derive(Clone, Copy, Debug, PartialEq, Eq)]
pub enum Finding {
    /// The output is accepted: how many of its blocks have a model or a refuted part, and how many
    /// haven't.
    Good { proved: u32, unproved: u32 },
    /// The first wrong line, counted from 1, and why.
    Bad(u64, Flaw),
}

/// Why a line of an output is wrong.
#[derive(Clone, Copy, Debug, PartialEq, Eq)]
pub enum Flaw {
    /// The byte behind the greatest length stands on it, or the text itself is longer.
    TooLong,
    /// It isn't written as a line that can stand there, lacks its line feed, follows the last line,
    /// or is one past the end of an output without a last line.
    Form,
    /// It begins the block of another job than the next one.
    Number,
    /// Its model makes a clause of the job or a literal of its cube false.
    Model,
    /// Its part has a literal that the job's cube hasn't.
    Part,
    /// Its step isn't the next one or isn't ok; or it ends the block of a part that no step
    /// refutes.
    Trace,
    /// It is a last line that doesn't agree with the text.
    Last,
}

/// What is wrong at a line, or that memory was refused.
#[derive(Clone, Copy, Debug)]
pub(crate) enum Wrong {
    /// The line itself.
    Line(Flaw),
    /// The line before, which ends the block of a part that no step refutes.
    Unproved,
    /// Memory was refused.
    Memory,
}

impl From<std::alloc::AllocError> for Wrong {
    ghost use Rattle.std.specs.Prelude.{◌≡◌};
    ghost use Rattle.verdict_audit.specs.declared.findings.Wrong.TheVariants as wrong;

    ghost from_gives = { λ _ given. given ≡ wrong.Memory };

    fn from(_: std::alloc::AllocError) -> Wrong {
        Wrong::Memory
    }
}

//! Why a text isn't a trace.

use std::alloc::AllocError;

/// Why a text isn't a trace. Lines are counted from 1.
#[derive(Clone, Copy, Debug, PartialEq, Eq)]
pub enum TraceFault {
    /// That line isn't written as a trace line is, or lacks its line feed.
    Form(u64),
    /// The identifier of that line isn't the next number, or a hint isn't smaller than it.
    Order(u64),
    /// Memory was refused.
    Memory,
}

impl From<AllocError> for TraceFault {
    ghost use Rattle.std.specs.Prelude.{◌≡◌};
    ghost use Rattle.trace_text.specs.declared.faults.TraceFault.TheVariants as fault;

    ghost from_gives = { λ _ given. given ≡ fault.Memory };

    fn from(_: AllocError) -> TraceFault {
        TraceFault::Memory
    }
}

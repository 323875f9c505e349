//! Why a text isn't a list of blocks.

use std::alloc::AllocError;

/// Why a text isn't a list of blocks. Lines are counted from 1.
#[derive(Clone, Copy, Debug, PartialEq, Eq)]
pub enum BlockFault {
    /// That line isn't one that can stand there, or lacks its line feed; one past the last line
    /// where the text ends inside a block.
    Form(u64),
    /// Memory was refused.
    Memory,
}

impl From<AllocError> for BlockFault {
    ghost use Rattle.std.specs.Prelude.{◌≡◌};
    ghost use Rattle.verdict_text.specs.declared.faults.BlockFault.TheVariants as fault;

    ghost from_gives = { λ _ given. given ≡ fault.Memory };

    fn from(_: AllocError) -> BlockFault {
        BlockFault::Memory
    }
}

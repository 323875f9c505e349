// A lock round one value, whose passes remember. A mutex keeps a value safe and tells nothing of
// the last hold; here whoever enters again finds all that it saw before, and its own entries
// exactly as it left them. The layer above relies on the clauses of `TurnLock`'s calls over what a
// pass is seen as: its number, the entries that it has seen, those of its own, a floor under the
// count, whether it is idle, and what its looks found. It must not know of the words, the slot, the
// seats and the rule by which the calls keep this.
#![tactic(auto)]

mod closing;
mod kept;
mod lock;
mod making;
mod plays;
mod rule;
#[cfg(test)]
mod tests;
mod view;

pub use kept::Kept;
pub use lock::{Held, Pass, TurnLock};
pub use view::Look;

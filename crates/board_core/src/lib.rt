//! The board of the concurrent solver: the jobs of all clients, the clauses that workers share, and
//! the verdicts, as a state machine without threads.
//!
//! The layers above see a board as its rules and its journal, which is legal after any list of
//! calls; each call adds at most one entry, and its answer is what the journal before it says. This
//! crate says what a lock may keep a board by, and knows no thread and no solver.
#![tactic(auto)]

mod answers;
mod board;
mod clients;
mod ends;
mod faults;
mod index;
mod kept;
mod looks;
mod rank;
mod task;
#[cfg(test)]
mod tests;
mod tournament;
mod workers;

pub use board::Board;
pub use faults::{AddFault, AskFault, CancelFault, Late, LookFault, ShareFault};
pub use task::Task;

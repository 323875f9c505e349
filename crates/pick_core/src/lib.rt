//! Decision orders: which variable a search decides next, with which phase, and how long it runs
//! between restarts.
//!
//! The layer above uses `Queue` or `Scores`, `Phases` and `luby`, and says which variables are
//! bumped. This crate knows no clause and no conflict; it reads of a trail only which variables are
//! assigned.
#![tactic(auto)]

mod heap;
mod links;
mod phases;
mod queue;
mod restarts;
mod scores;

pub use phases::Phases;
pub use queue::{Queue, skipped_stay_assigned};
pub use restarts::luby;
pub use scores::{Scores, free_variables_wait_on};

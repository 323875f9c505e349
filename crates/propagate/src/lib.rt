//! Unit propagation over a store of clauses, along watch lists.
//!
//! The layer above adds clauses to a `Store` and calls `propagate`, which completes a trail under
//! them or answers a clause that is false; its contract speaks of clauses as sets of literals, and
//! of the two watched ones of each, which stand in its first two places. This crate makes no
//! decision, and it doesn't know why a clause is there.
#![tactic(auto)]

mod new_clauses;
mod places;
mod propagation;
mod store;
mod watches;

pub use propagation::propagate;
pub use store::Store;

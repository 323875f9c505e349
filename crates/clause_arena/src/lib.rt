//! A flat store of clauses: all literals in one block of memory, and sixteen bytes more for each
//! clause.
//!
//! The layers above see an arena as the list of its clauses, each with its literals in their
//! places, its tag and its origin, and keep their watched literals in chosen places by
//! `Arena::swap`. This crate knows no assignment, no watch and no search.
#![tactic(auto)]

mod arena;
mod compaction;
mod names;

pub use arena::Arena;

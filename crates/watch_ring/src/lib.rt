//! Watch lists: for each literal a list of sides of clauses.
//!
//! A side is one of the two watched places of a clause. The lists are linked by indices in one
//! array with two links for each clause, so a side moves from one list to another in a few steps
//! and without memory. This crate knows no literal of a clause: which side stands in which list is
//! up to its caller.
#![tactic(auto)]

mod link;
mod ring;

pub use ring::WatchRing;

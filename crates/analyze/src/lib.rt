//! Analysis of conflicts: what a solver learns from a false clause, and which assumptions are to
//! blame for a false literal.
//!
//! The layer above uses `learn` and `refute`, whose answers carry a step that a checker accepts
//! over the arena's clauses and the unit clauses of level 0. This crate knows neither how the trail
//! came about nor how clauses are found again: it reads a trail that is founded on an arena, and
//! changes neither.
#![tactic(auto)]

mod classify;
mod first_uip;
mod learning;
mod naming;
mod nodes;
mod refuting;
mod scratch;
mod seen;
#[cfg(test)]
mod tests;

pub use learning::{Learnt, learn};
pub use refuting::refute;
pub use scratch::Scratch;

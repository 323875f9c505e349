//! The audit of an output as a program: two sources in, one line out, and a status.
//!
//! The layer above uses the contract of `audit_run`: which bytes were audited, what the sink took,
//! and when each status comes. This crate knows no rule of the audit and no real file.
#![tactic(auto)]

mod input;
mod running;
mod telling;
#[cfg(test)]
mod tests;

pub use running::audit_run;

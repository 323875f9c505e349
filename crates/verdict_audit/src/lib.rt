//! The audit of an output: whether what a run wrote for a text is right.
//!
//! The layer above uses that `audit` answers `Good` exactly where each line of an output is right,
//! and otherwise names the first wrong line and why. This crate knows nothing of the solver: it
//! stands on the readers of texts, on the form of blocks and on the checker of steps alone.
#![tactic(auto)]

mod auditing;
mod findings;
mod judging;
mod last_line;
mod laws;
mod places;
mod problem;
mod taking;
#[cfg(test)]
mod tests;

pub use auditing::audit;
pub use findings::{Finding, Flaw};
pub use laws::{accepted_is_right, audit_has_one_finding};

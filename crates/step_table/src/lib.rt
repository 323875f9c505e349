//! Steps of derivations in flat arrays: all literals in one, all hints in one, and twelve bytes
//! more for each step.
//!
//! The layers above see a table as the list of its steps. A hint takes four bytes where its numbers
//! are small enough, and is kept exactly where they aren't. This crate knows no check and no
//! search.
#![tactic(auto)]

mod hints;
mod step_ref;
mod table;
#[cfg(test)]
mod tests;

pub use step_ref::StepRef;
pub use table::Steps;

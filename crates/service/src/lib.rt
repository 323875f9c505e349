//! The service: a board behind a lock, which clients and workers share from any thread.
//!
//! Each call of a client makes holds of its own, and its reply is the board's reply in one of them;
//! contracts say which hold that was, by what the caller's pass has seen and what its looks found.
//! So the layers above know that a job once added is found again, and that a verdict once read is
//! read again. This crate knows no solver and no text; that a sleeper wakes is promised by no
//! clause.
#![tactic(auto)]

mod bell;
mod clients;
mod faults;
mod laws;
mod service;
#[cfg(test)]
mod tests;
mod workers;

pub use faults::TryFault;
pub use laws::{jobs_are_found_again, outcomes_are_read_again, verdicts_are_read_again};
pub use service::{ClientPass, Service, WorkerPass};

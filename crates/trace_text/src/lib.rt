//! Traces as text.
//!
//! A line of a trace is an LRAT addition with a letter in front. The layer above uses that `print`
//! writes exactly these lines and that `read` accepts exactly them, names the first wrong one, and
//! gives back what was printed. This crate knows no search, no verdict and no stream.
#![tactic(auto)]

mod faults;
mod lines;
mod printing;
mod reading;
#[cfg(test)]
mod tests;

pub use faults::TraceFault;
pub use printing::{print, print_onto};
pub use reading::{read, read_step};

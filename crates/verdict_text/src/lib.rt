//! Verdict blocks as text.
//!
//! A block is what a run writes for one job: its verdict, and under it a model, or a refuted part
//! with its trace. The layers above use that `block` writes exactly these lines, that `read`
//! accepts exactly them, names the first wrong one and gives back what was written, and, for an
//! audit, what single lines say. This crate knows no run, no last line and no job's clauses.
#![tactic(auto)]

mod blocks;
mod faults;
mod lines;
mod printing;
mod reading;
mod steps;
#[cfg(test)]
mod tests;

pub use blocks::{Printed, Shown};
pub use faults::BlockFault;
pub use lines::{JobLine, Status, is_trace_line, read_job_line, read_model_line, read_part_line};
pub use printing::block;
pub use reading::read;

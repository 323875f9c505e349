//! The text that a number stands for: 10,480 clauses and 120 cubes, most of whose literals are
//! drawn by a pseudorandom generator.
//!
//! The layers above use that equal numbers give equal texts, and that each such text is accepted.
//! This crate knows no solver, no source of bytes and no runtime.
#![tactic(auto)]

mod draws;
mod making;
mod statements;
#[cfg(test)]
mod tests;

pub use making::make;

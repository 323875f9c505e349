//! Tokens of lines: decimal numbers, literals as DIMACS writes them, and where a text is cut.
//!
//! The layers above use the definitions in `specs/`: which tokens write a number or a literal, and
//! what the literals up to a `0` are; what is printed here is read back. This crate knows no line
//! and no text.
#![tactic(auto)]

mod cuts;
mod literals;
mod numbers;
mod printing;
#[cfg(test)]
mod tests;

pub use cuts::cut_at;
pub use literals::{lits_before_zero, lits_then_zero};
pub use numbers::{is_decimal, read_lit, read_number};
pub use printing::{print_lit, print_lits, print_number};

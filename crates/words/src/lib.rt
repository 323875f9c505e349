//! The words of `tarmo`: what a command line asks for.
//!
//! The layer above calls `read_words`, whose contract says that the words are accepted exactly
//! where the parser of command lines finds no fault in them and one rule of this project holds.
//! This crate knows no run, and it opens and reads nothing.
#![tactic(auto)]

mod command;
mod given;
mod parser;
mod reading;
#[cfg(test)]
mod tests;

pub use command::{Command, WordsFault, Work};
pub use parser::usage;
pub use reading::read_words;

//! The iCNF text: clauses and cubes of an incremental query, as bytes.
//!
//! The layers above use the statements of a text, and that reading gives exactly those of the
//! definition in `specs/`. This crate knows no solver, no source of bytes and no runtime.
#![tactic(auto)]

mod ahead;
mod faults;
mod laws;
mod parser;
mod places;
mod printing;
mod reader;
mod sets;
mod statements;
mod words;

pub use faults::{Fault, Reason};
pub use laws::each_text_is_within_limits;
pub use printing::print;
pub use reader::{Fed, Reader};
pub use statements::{Numbered, Statement, Statements};

#[cfg(test)]
mod tests;

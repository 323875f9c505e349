//! The run of `tarmo`: from the bytes of a source to the blocks of its answers in a sink.
//!
//! The program calls `run`, whose contract is the promise of the whole: which bytes were written
//! for the bytes that were read, what stands on the board that is given back, and what each status
//! means. `run_alone` makes the same promise on the caller's own thread. This crate knows no file
//! and no terminal: it reads and writes through the traits of `run_io`.
#![tactic(auto)]

mod adder;
mod alone;
mod asking;
mod client;
mod closing;
mod crew;
mod desk;
mod endings;
mod laws;
mod meeting;
mod pieces;
mod printer;
mod reader;
mod sides;
mod sum;
mod summary;
#[cfg(test)]
mod tests;
mod top;
mod writer;

pub use alone::{Finish, WORDS_REFUSED, run_alone};
pub use endings::{NO_MEMORY, UNDECIDED};
pub use laws::{runs_agree, texts_fit_on_boards};
pub use top::run;

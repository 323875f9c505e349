//! A derivation trimmed to what its last step rests on.
//!
//! A solver learns far more than one answer needs. `trim` takes the steps that are reached over
//! hints from the answer's step, out of the shared packets and the solver's own steps, and numbers
//! them anew; the layer above uses that the result is a trace wherever the given steps are ok.
//! `pack` takes those own steps alone that the shared database doesn't have yet, as a packet that
//! is ok over it. This crate knows no text, no solver and no board.
#![tactic(auto)]

mod found_step;
mod laws;
mod lookup;
mod own_reach;
mod own_renumber;
mod packing;
mod reach;
mod renumber;
#[cfg(test)]
mod tests;
mod trimming;

pub use laws::ok_steps_have_traces;
pub use own_reach::packed_numbers;
pub use packing::pack;
pub use trimming::trim;

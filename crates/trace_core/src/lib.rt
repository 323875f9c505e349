//! Derivations of clauses and their exact check: what evidence is.
//!
//! A step is a clause with hints, in the shape of LRAT additions with positive hints. The layers
//! above use the definitions in `specs/` (when a step is ok over known clauses, and what a trace
//! is), the contract of `Checker::check`, and the laws that ok steps and traces prove what they
//! say. This crate knows no text, no solver and no shared database.
#![tactic(auto)]

mod block;
mod checker;
mod database;
mod derivation;
mod laws;
mod marks;
mod room;
mod step_check;
#[cfg(test)]
mod tests;
mod unit_propagation;

pub use checker::Checker;
pub use derivation::{Hints, Packet, Step, Steps};
pub use laws::{
    ok_step_stays_ok, proof_is_sound, step_is_sound, tag_bounds_inputs, tautology_holds,
    trace_is_sound,
};

//! One incremental solver whose every answer has its derivation.
//!
//! A program makes a `Session`, loads it with the clauses of one job after the other, and asks it
//! for the answer to each cube, in rounds of so many learnt clauses or until it is there. What was
//! learnt is kept. Contracts see a session as its `Solver` and the names of its published steps;
//! what every session keeps is `IsSound`, which `Session::steps` tells. Behind it stands a search
//! by conflict-driven clause learning; what it keeps between its steps is `IsSearching`. This crate
//! knows no text, no board and no other session.
#![tactic(auto)]

mod answering;
mod conflicts;
mod counts;
mod inputs;
mod levels;
mod models;
mod moves;
mod naming;
mod order;
mod places;
mod propagation;
mod publishing;
mod ranking;
mod refuting;
mod restarts;
mod rounds;
mod search;
mod session;
mod sharing;
mod solving;
mod stamps;
#[cfg(test)]
mod tests;
mod unit_steps;

pub use answering::Conclusion;
pub use counts::Counts;
pub use rounds::Round;
pub use session::Session;

//! A worker: attempts at the jobs of a board, one after the other.
//!
//! A worker takes the job of the scheduling rule, pursues it with its bench, and ends the attempt
//! with what came of it, until no job is to take. The layer above gives `work_alone` a board and
//! a bench that fits it, and has both back so. With a service it pursues an attempt by slices:
//! after each round one hold, in which it shares what it learnt and reads what others shared. What
//! is done in a hold is a function over the board, apart from the rest.
#![tactic(auto)]

mod attempt;
mod attempts;
mod bench;
mod ending;
mod ends;
mod holds;
mod importing;
mod lessons;
mod loading;
mod rounds;
mod segments;
mod serving;
mod sharing;
mod slices;
#[cfg(test)]
mod tests;
mod working;

pub use attempt::Attempt;
pub use bench::Bench;
pub use ends::End;
pub use serving::work;
pub use slices::{Turn, slice};
pub use working::work_alone;

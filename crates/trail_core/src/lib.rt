//! The trail: which literals are true, in the order in which they became so, each with its level
//! and the number of the clause that forced it.
//!
//! The layers above use `specs/UnderTrail.antt`, which says what holds of clauses under a trail,
//! and the calls of `Trail`, which see it as its entries, its depth and the number of reserved
//! variables. This crate knows no clause: a reason is a number to it.
//!
//! A trail is kept in three tables, one for each way in which it is read. Propagation asks for
//! truth values, and for nothing else of a variable: they have a table of one byte a literal, by
//! code, so that `truth` is one load, with no test, since its condition is that the variable is
//! reserved. `value` has no condition and so one test more. Learning asks for level, place and
//! reason: these stand together, sixteen bytes a variable, since it asks for them together. It goes
//! back along the trail by place and sorts by it, so a place is kept with each variable and not
//! looked for. Propagation's own walk goes along the literals in their order, four bytes each. That
//! makes 22 bytes a variable, all of them taken when it is reserved: to assign takes no memory.
//!
//! A reason may be any number, and a clause is never named by an address, so the clauses may move.
//! The literals of a level are the last ones, and going back takes them off from the end.
#![tactic(auto)]

mod counts;
mod standing;
mod trail;
mod truth;

pub use trail::Trail;
pub use truth::Truth;

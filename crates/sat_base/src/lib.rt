//! Literals, clauses, cubes and assignments of propositional logic, with truth and entailment.
//!
//! The layers above use the definitions in `specs/`: when a clause is true under an assignment,
//! when it follows from a list of clauses, and which answers to a query are right. This crate knows
//! no text, no solver and no runtime.
#![tactic(auto)]

mod assignments;
mod clauses;
mod cubes;
mod items;
mod laws;
pub mod limits;
mod literal_sets;
mod literals;
mod origins;
#[cfg(test)]
mod tests;

pub use assignments::Assign;
pub use clauses::Clause;
pub use cubes::Cube;
pub use items::Items;
pub use laws::{
    cube_contradicts_its_negation, entailment_grows, few_clauses, one_answer, resolution_is_sound,
    truth_sees_members,
};
pub use literal_sets::{greatest_variable, is_strictly_ascending};
pub use literals::Lit;
pub use origins::Ref;

//! What a text states.

use sat_base::{Clause, Cube, Items};

/// One statement of a text. A cube asks whether it can be true together with all clauses before it.
#[derive(Debug, Drop, PartialEq, Eq)]
pub enum Statement {
    Clause(Clause),
    Cube(Cube),
}

/// A statement and the line of its first token, counted from 1.
#[derive(Debug, Drop, PartialEq, Eq)]
pub struct Numbered {
    pub line: u64,
    pub statement: Statement,
}

/// Statements with their lines, in the order of the text.
pub type Statements = Items<Numbered>;

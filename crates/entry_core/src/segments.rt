//! What a client adds: clauses and the query that follows them.

use sat_base::{Clause, Cube, Items};

/// Clauses in order.
pub type Clauses = Items<Clause>;

/// The clauses that a client adds, and the cube of the job that they add. The job's clauses are
/// these and those of every segment before.
#[derive(Debug, Drop)]
pub struct Segment {
    pub clauses: Clauses,
    pub cube: Cube,
}

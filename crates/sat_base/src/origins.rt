//! Names of known clauses.

/// The name of a clause that a derivation may cite: an input clause, a step of a shared packet, or
/// an own step. All numbers count from 1.
#[derive(Clone, Copy, Debug, PartialEq, Eq, PartialOrd, Ord)]
pub enum Ref {
    /// The input clause of that number.
    Input(u32),
    /// A step of the packet at that place of the shared database.
    Shared { packet: u32, step: u64 },
    /// The own step of that number.
    Own(u64),
}

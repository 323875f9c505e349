//! What a session counts for those who measure.

/// How much a session did since it was made. Of learnt clauses it tells those that are held; the
/// other counts stand still at the greatest `u64`, and no contract speaks of them.
#[derive(Clone, Copy, Debug, PartialEq, Eq)]
pub struct Counts {
    /// How many learnt clauses are held.
    pub learnt: u64,
    /// How often a literal was decided: an assumption or a free variable, each time that a level
    /// was opened with it.
    pub decisions: u64,
    /// How often a clause forced a literal, at level 0 and above.
    pub propagations: u64,
}

//! What a trail counts for those who measure.

/// How often a trail was changed since it was made. No contract speaks of it.
#[derive(Clone, Copy, Debug)]
pub(crate) struct Counts {
    /// The levels that were opened.
    pub decisions: u64,
    /// The literals that were made true.
    pub assignments: u64,
}

impl Counts {
    pub(crate) fn none() -> Counts {
        Counts {
            decisions: 0,
            assignments: 0,
        }
    }
}

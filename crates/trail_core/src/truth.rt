//! Truth values of a partial assignment.

/// The truth value of a literal under a trail. One byte.
#[derive(Clone, Copy, Debug, PartialEq, Eq)]
pub enum Truth {
    True,
    False,
    Unassigned,
}

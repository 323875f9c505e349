//! Who goes first.

ghost use Rattle.std.specs.Prelude.{◌≡◌};
ghost use Rattle.board_core.specs.Rank.{goes_before, earlier_of};

/// Where a job stands among those that wait: fewer open attempts go first, then the smaller number.
#[derive(Clone, Copy, Debug, PartialEq, Eq)]
pub(crate) struct Rank {
    /// How many of its attempts are open.
    pub(crate) open_now: u32,
    /// Its number.
    pub(crate) job: u32,
}

impl Rank {
    /// Whether it goes before the other.
    pub(crate) fn goes_before(self, other: Rank) -> bool
        ensures { result ≡ goes_before self other }
    {
        self.open_now < other.open_now || (self.open_now == other.open_now && self.job < other.job)
    }
}

// Who wins between two that may not have entered: the first of them, where both did and neither
// goes before the other.
pub(crate) fn earlier_of(one: Option<Rank>, other: Option<Rank>) -> Option<Rank>
    ensures { result ≡ earlier_of one other }
{
    match (one, other) {
        (Some(rank), Some(rival)) if rival.goes_before(rank) => Some(rival),
        (Some(rank), _) => Some(rank),
        (None, _) => other,
    }
}

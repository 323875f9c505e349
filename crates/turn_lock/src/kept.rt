// What a value under the lock has to tell of itself.
ghost use Rattle.std.specs.Prelude.{◌≡◌, ◌≤◌, ℕ, List, ◌++◌};

/// A value that grows by entries, each made by one caller. Its count never falls as it grows, and
/// its ground is what no hold changes.
pub trait Kept {
    type Entry;

    type Ground;

    // The entries so far, in order.
    ghost entries: { Self → List Self.Entry };

    // The number of the caller that made an entry.
    ghost caller: { Self.Entry → ℕ };

    // A number that anybody may read without the lock.
    ghost count: { Self → ℕ };

    // The ground: what stays the same for as long as the value is under the lock.
    ghost basis: { Self → Self.Ground };

    /// The count of the value as it stands.
    fn count_now(&self) -> u64
        ensures { result ≡ count self.now };

    // Where one value's entries go on from another's of the same ground, its count is no less.
    ghost counts_up: { (x y : Self) (more : List Self.Entry) → basis x ≡ basis y
        → entries y ≡ entries x ++ more → count x ≤ count y };
}

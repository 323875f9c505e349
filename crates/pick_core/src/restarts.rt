//! The sequence of Luby, Sinclair and Zuckerman.

ghost use Rattle.std.specs.Prelude.{◌≤◌};
ghost use Rattle.pick_core.specs.Luby.{IsLuby};

/// The item at this place, counted from 1, of the sequence 1, 1, 2, 1, 1, 2, 4, .. (M. Luby, A.
/// Sinclair, D. Zuckerman, "Optimal speedup of Las Vegas algorithms", 1993).
pub fn luby(place: u64) -> u64
    requires { 1 ≤ place }
    ensures { IsLuby place result }
{
    let mut at = place;
    loop {
        let half = 1u64 << at.ilog2();
        let rest = at - half + 1;
        if rest == half {
            return half;
        }
        at = rest;
    }
}

#[cfg(test)]
mod tests;

//! What a trail keeps of an assigned variable besides its truth value.

ghost use Rattle.std.specs.Prelude.{◌≡◌, ℕ, ◌/◌, ◌<◌, Option, None};
ghost use Rattle.trail_core.specs.Standing.{place_of, reason_of};

use std::mem::size_of;

// Level, reason and place on the trail of an assigned variable, in sixteen bytes. A reason may be
// any number, so that there is one is told by the lowest bit of `mark`; the other bits are the
// place, which is below 8,388,607 and so leaves room.
#[derive(Clone, Copy, Debug)]
pub(crate) struct Standing {
    reason: usize,
    pub level: u32,
    mark: u32,
}

const _: () = prove!(size_of::<Standing>() == 16);

impl Standing {
    pub(crate) fn new(place: u32, level: u32, reason: Option<usize>) -> Standing
        requires { place < 8388607 }
        ensures place { place_of result ≡ place }
        ensures level { result.level ≡ level }
        ensures reason { reason_of result ≡ reason }
    {
        match reason {
            Some(id) => Standing {
                reason: id,
                level,
                mark: 2 * place + 1,
            },
            None => Standing {
                reason: 0,
                level,
                mark: 2 * place,
            },
        }
    }

    pub(crate) fn place(&self) -> u32
        ensures { result ≡ place_of self.now }
    {
        self.mark / 2
    }

    pub(crate) fn reason(&self) -> Option<usize>
        ensures { result ≡ reason_of self.now }
    {
        if self.mark % 2 == 1 {
            Some(self.reason)
        } else {
            None
        }
    }
}

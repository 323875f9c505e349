//! Links of four bytes.

ghost use Rattle.std.specs.Prelude.{◌≡◌, ◌<◌, None, Some};
ghost use Rattle.std.specs.Option.{option_map};
ghost use Rattle.watch_ring.specs.Link.{pair_of};

use std::marker::Model;
use std::mem::size_of;

// The number of a side, twice that of its clause and 0 or 1 more, or none. Contracts see it as
// that.
#[derive(Clone, Copy, Debug)]
pub(crate) struct Link {
    raw: u32,
}

const _: () = prove!(size_of::<Link>() == 4);

impl Model for Link {
    ghost use Rattle.std.specs.Prelude.{ℕ, Option};
    ghost use Rattle.std.proofs.Common.{ap};
    ghost use Rattle.watch_ring.specs.Link.{link_of, raw_of, raw_of-link_of};

    ghost Value = { Option ℕ };

    ghost view = { λ link. link_of link.raw };

    ghost inverse = { λ side. record { raw = raw_of side } };

    ghost inverse_ok = { λ link h. ap (λ n. record { raw = n }) (raw_of-link_of link.raw) };
}

impl Link {
    pub(crate) fn none() -> Link
        ensures { result ≡ None }
    {
        Link { raw: u32::MAX }
    }

    pub(crate) fn to(side: usize) -> Link
        requires { side < 4294967295 }
        ensures { result ≡ Some side }
    {
        Link { raw: side as u32 }
    }

    // The number of the clause, and which of its sides it is.
    pub(crate) fn side(self) -> Option<(usize, u8)>
        ensures { result ≡ option_map pair_of self }
    {
        if self.raw == u32::MAX {
            return None;
        }
        Some(((self.raw / 2) as usize, (self.raw % 2) as u8))
    }
}

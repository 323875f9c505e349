//! What the locks keep: pairs of a caller's number and a number.
ghost use Rattle.turn_lock.specs.Entries.{AddsOwn};

use std::alloc::AllocError;
use turn_lock::Kept;

#[derive(Drop)]
pub struct Log {
    pub items: Vec<(u32, u64)>,
}

impl Kept for Log {
    ghost use Rattle.std.specs.Prelude.{length};
    ghost use Rattle.std.proofs.Common.{arith, length-append, ap};

    type Entry = (u32, u64);

    type Ground = u64;

    ghost entries = { λ log. log.items.items };

    ghost caller = { λ entry. entry.0 };

    ghost count = { λ log. length log.items.items };

    ghost basis = { λ _. 0 };

    fn count_now(&self) -> u64 {
        self.items.len() as u64
    }

    ghost counts_up = { λ x y more same longer. Prim.omega
        (arith, ap length longer, length-append x.items.items more) };
}

impl Log {
    pub fn add(&mut self, caller: u32, number: u64) -> Result<(), AllocError>
        ensures { AddsOwn (λ entry. entry.0) caller self.old.items.items self.new.items.items }
    {
        self.items.push((caller, number))?;
        Ok(())
    }
}

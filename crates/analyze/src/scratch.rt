//! What an analysis works with.

ghost use Rattle.std.specs.Prelude.{◌≡◌, max, OnOk, OnErr};

use std::alloc::{AllocError, Global};
use std::marker::Model;

/// Flags and lists that the calls of this crate are lent, so that none of them takes or clears
/// memory for each variable. Between calls nothing is seen or listed. Contracts see it as how many
/// variables are reserved.
#[derive(Debug, Drop)]
pub struct Scratch {
    pub(crate) seen: Vec<bool>,
    pub(crate) analyzed: Vec<usize>,
}

impl Model for Scratch {
    ghost use Rattle.std.specs.Prelude.{ℕ, ◌≡◌, [], vec_len};
    ghost use Rattle.analyze.specs.Seen.{AreClear};

    ghost Value = { ℕ };

    ghost view = { λ scratch. vec_len scratch.seen };

    ghost invariant = { λ scratch. AreClear scratch.seen.items × (scratch.analyzed.items ≡ []) };
}

impl Scratch {
    /// A scratch without reserved variables. Takes no memory.
    pub fn new(alloc: Global) -> Scratch
        ensures { result ≡ 0 }
    {
        Scratch {
            seen: Vec::new(alloc),
            analyzed: Vec::new(alloc),
        }
    }

    /// Reserves the variables 1 to `vars`; those that are reserved already stay so. Takes a byte
    /// for each.
    pub fn reserve(&mut self, vars: u32) -> Result<(), AllocError>
        ensures ok { OnOk result (self.new ≡ max self.old vars) }
        ensures err { OnErr result (self.new ≡ self.old) }
    {
        let vars = vars as usize;
        if vars > self.seen.len() {
            self.seen.resize(vars, false)?;
        }
        Ok(())
    }
}

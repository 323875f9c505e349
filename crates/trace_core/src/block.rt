//! Known clauses in one block of memory.

ghost use Rattle.std.specs.Prelude.{◌≡◌, ◌^◌, ◌<◌, [], ◌∷◌, ◌++◌, length, OnOk, OnErr, MatchOption};
ghost use Rattle.std.specs.Prelude.{Some, None};
ghost use Rattle.trace_core.specs.Known.{item_at};

use sat_base::Lit;
use std::alloc::{AllocError, Global};
use std::marker::Model;

// Where a clause lies in the block of literals, and its tag. 16 bytes.
#[derive(Clone, Copy, Debug)]
struct Place {
    start: usize,
    len: u32,
    tag: u32,
}

/// Known clauses, numbered from 1. They lie one after the other in one block of literals, so that a
/// clause costs 4 bytes a literal and 16 more. Contracts see the list of clauses with their tags.
#[derive(Debug, Drop)]
pub(crate) struct KnownClauses {
    lits: Vec<Lit>,
    places: Vec<Place>,
}

impl Model for KnownClauses {
    ghost use Rattle.std.specs.Prelude.{List, All, length};
    ghost use Rattle.trace_core.specs.Known.{Known};

    ghost Value = { List Known };

    ghost use Rattle.trace_core.specs.Layout.{clauses_in, EndsWithin};

    ghost view = { λ block. clauses_in block.lits.items block.places.items };

    ghost invariant = { λ block. All (EndsWithin (length block.lits.items)) block.places.items };
}

/// A known clause and its tag.
#[derive(Clone, Copy, Debug)]
pub(crate) struct KnownClause<'a> {
    pub(crate) lits: &'a [Lit],
    pub(crate) tag: u32,
}

impl KnownClauses {
    /// No clauses. Takes no memory.
    pub(crate) fn new(alloc: Global) -> KnownClauses
        ensures { result ≡ [] }
    {
        KnownClauses {
            lits: Vec::new(alloc),
            places: Vec::new(alloc),
        }
    }

    /// Adds a clause with its tag. Where memory is refused all stays as it was.
    pub(crate) fn push(&mut self, lits: &[Lit], tag: u32) -> Result<(), AllocError>
        requires { length lits.now < 2 ^ 32 }
        ensures ok { OnOk result
            (self.new ≡ self.old ++ record { clause = lits.now; tag = tag } ∷ []) }
        ensures err { OnErr result (self.new ≡ self.old) }
    {
        let place = Place {
            start: self.lits.len(),
            len: lits.len() as u32,
            tag,
        };
        self.lits.extend_from_slice(lits)?;
        self.places.push(place)?;
        Ok(())
    }

    /// How many clauses there are.
    pub(crate) fn len(&self) -> usize
        ensures { result ≡ length self.now }
    {
        self.places.len()
    }

    /// Takes all clauses away, and keeps their memory.
    pub(crate) fn clear(&mut self)
        ensures { self.new ≡ [] }
    {
        self.lits.clear();
        self.places.clear();
    }

    /// The clause of that number, counted from 1, if there is one.
    pub(crate) fn get(&self, number: u64) -> Option<KnownClause<'_>>
        ensures { MatchOption result (item_at self.now number ≡ None)
            (λ found. item_at self.now number
            ≡ Some (record { clause = found.lits.now; tag = found.tag })) }
    {
        if number == 0 || number > self.places.len() as u64 {
            return None;
        }
        let place = self.places[(number - 1) as usize];
        let end = place.start + place.len as usize;
        Some(KnownClause {
            lits: &self.lits[place.start..end],
            tag: place.tag,
        })
    }
}

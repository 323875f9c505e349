//! Clauses in one block of memory.
//!
//! Propagation reads clauses in an order that nobody foresees, so what counts is how many pieces of
//! memory one look touches. A clause with a heap block of its own would cost a pointer, the block's
//! header and a jump; here its literals lie between two bounds, behind those of the clause that was
//! added before it. Tags and origins, which only derivations need, stand in arrays of their own, so
//! that propagation doesn't load them. The two watched literals are the first two of a clause:
//! nothing else says which they are, and a watch changes by `swap`. Clauses leave from the end, so
//! a number is a name that stays: in the lists of watches, as the reason of a literal, and for the
//! derivation that made the clause. Only `keep` moves clauses and numbers them anew, for an owner
//! that has no such name left.

ghost use Rattle.std.specs.Prelude.{◌≡◌, ℕ, ◌<◌, List, [], ◌∷◌, ◌++◌, length, take, All, IfOk};
ghost use Rattle.std.specs.Prelude.{OnOk, OnErr};
ghost use Rattle.clause_arena.specs.Arena.{HasNoRepeat, clause_at, with_places_swapped};
ghost use Rattle.clause_arena.specs.Kept.{kept_of};
ghost use Rattle.clause_arena.specs.Layout.{begun};

use crate::compaction::compact;
use crate::names::Names;
use sat_base::{Clause, Lit, Ref};
use std::alloc::{AllocError, Global};
use std::marker::Model;

/// Clauses, numbered from 0. Their literals stand one clause behind another in one block, four
/// bytes each, and the clause of number `id` is what lies between the bounds `id` and `id + 1`. So
/// a clause takes sixteen bytes besides its literals: four for a bound, four for its tag, eight for
/// its origin. Contracts see an arena as the list of its clauses.
#[derive(Debug, Drop)]
pub struct Arena {
    lits: Vec<Lit>,
    bounds: Vec<u32>,
    names: Names,
}

impl Model for Arena {
    ghost use Rattle.std.specs.Prelude.{List};
    ghost use Rattle.clause_arena.specs.Arena.{ArenaClause};

    ghost Value = { List ArenaClause };

    ghost use Rattle.clause_arena.specs.Layout.{clauses_of, IsArena};

    ghost view = { clauses_of };

    ghost invariant = { IsArena };
}

impl Arena {
    /// An arena without clauses. Takes no memory.
    pub fn new(alloc: Global) -> Arena
        ensures { result ≡ [] }
    {
        Arena {
            lits: Vec::new(alloc),
            bounds: Vec::new(alloc),
            names: Names::new(alloc),
        }
    }

    /// Adds a clause behind the others, with its literals in ascending order, and answers its
    /// number. An arena that would have more than 4,294,967,295 literals is answered as want of
    /// memory.
    pub fn add(&mut self, clause: &Clause, tag: u32, origin: Ref) -> Result<usize, AllocError>
        ensures number { IfOk result (λ id. id ≡ length self.old) }
        ensures ok { OnOk result
            (self.new ≡ self.old ++ record { lits = clause.now; tag = tag; origin = origin } ∷ []) }
        ensures err { OnErr result (self.new ≡ self.old) }
    {
        let lits = clause.lits();
        begin(&mut self.bounds)?;
        let id = self.bounds.len() - 1;
        let start = self.bounds[id] as usize;
        let end = start + lits.len();
        if end > u32::MAX as usize {
            return Err(AllocError);
        }
        // What a call that wanted memory left here goes first.
        self.lits.truncate(start);
        self.names.truncate(id);
        self.lits.extend_from_slice(lits)?;
        self.names.push(tag, origin)?;
        self.bounds.push(end as u32)?;
        Ok(id)
    }

    /// How many clauses it has.
    pub fn len(&self) -> usize
        ensures value { result ≡ length self.now }
        ensures distinct { All (λ clause. HasNoRepeat clause.lits) self.now }
    {
        self.bounds.len().saturating_sub(1)
    }

    /// The literals of a clause in their places.
    pub fn lits(&self, id: usize) -> &[Lit]
        requires { id < length self.now }
        ensures value { result.now ≡ (clause_at self.now id).lits }
        ensures distinct { HasNoRepeat result.now }
    {
        let start = self.bounds[id] as usize;
        let end = self.bounds[id + 1] as usize;
        &self.lits[start..end]
    }

    /// The tag of a clause.
    pub fn tag(&self, id: usize) -> u32
        requires { id < length self.now }
        ensures { result ≡ (clause_at self.now id).tag }
    {
        self.names.tag(id)
    }

    /// The name by which derivations cite a clause.
    pub fn origin(&self, id: usize) -> Ref
        requires { id < length self.now }
        ensures { result ≡ (clause_at self.now id).origin }
    {
        self.names.origin(id)
    }

    /// Exchanges two places of a clause, and changes nothing else.
    pub fn swap(&mut self, id: usize, i: usize, j: usize)
        requires known { id < length self.old }
        requires i_in { i < length (clause_at self.old id).lits }
        requires j_in { j < length (clause_at self.old id).lits }
        ensures { self.new ≡ with_places_swapped self.old id i j }
    {
        let start = self.bounds[id] as usize;
        self.lits.swap(start + i, start + j);
    }

    /// Takes back the clauses behind the first `len`. Where there are no more than that, nothing
    /// changes. Takes no memory.
    pub fn truncate(&mut self, len: usize)
        ensures { self.new ≡ take len self.old }
    {
        // What then stands behind the last bound goes with the next `add`.
        if len < self.bounds.len() {
            self.bounds.truncate(len + 1);
        }
    }

    /// Keeps exactly the clauses that have `true` in `keep`, in order, numbered anew from 0; there
    /// is one item for each clause. Takes no memory.
    pub fn keep(&mut self, keep: &[bool])
        requires { length keep.now ≡ length self.old }
        ensures { self.new ≡ kept_of keep.now self.old }
    {
        let kept = compact(&mut self.lits, &mut self.bounds, &mut self.names, keep);
        self.bounds.truncate(kept + 1);
    }
}

// The first bound, where there is none, and room for two: an `add` then ends with no want of
// memory.
fn begin(bounds: &mut Vec<u32>) -> Result<(), AllocError>
    ensures ok { OnOk result (bounds.new.items ≡ begun bounds.old.items) }
    ensures err { OnErr result (bounds.new.items ≡ bounds.old.items) }
{
    bounds.reserve(2)?;
    if bounds.is_empty() {
        bounds.push(0)?;
    }
    Ok(())
}

#[cfg(test)]
mod tests;

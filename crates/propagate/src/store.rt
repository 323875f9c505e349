//! A store of clauses.

ghost use Rattle.std.specs.Prelude.{◌≡◌, ◌+◌, ◌<◌, ◌≤◌, nat_lt, max, [], ◌∷◌, ◌++◌, length, take};
ghost use Rattle.std.specs.Prelude.{All, IfOk, OnOk, OnErr};
ghost use Rattle.std.specs.List.{filter};
ghost use Rattle.clause_arena.specs.Arena.{lits_of_each};
ghost use Rattle.clause_arena.specs.Kept.{kept_of};
ghost use Rattle.trail_core.specs.UnderTrail.{IsFounded};
ghost use Rattle.propagate.specs.Store.{AreWithin, AreAllWithin, AreNewFrom};
ghost use Rattle.propagate.specs.Pairing.{AreFit};

use clause_arena::Arena;
use sat_base::{Clause, Ref};
use std::alloc::{AllocError, Global};
use std::marker::Model;
use trail_core::Trail;
use watch_ring::WatchRing;

/// An arena of clauses with what propagation needs to find them. Contracts see a store as its
/// clauses, the numbers of those that are new to propagation, and how many variables are reserved.
#[derive(Debug, Drop)]
pub struct Store {
    pub(crate) arena: Arena,
    pub(crate) ring: WatchRing,
    // The clauses from this number on are new: they stand in no list.
    pub(crate) watched: usize,
    vars: u32,
}

impl Model for Store {
    ghost use Rattle.propagate.specs.Store.{StoreView};

    ghost Value = { StoreView };

    ghost use Rattle.propagate.specs.Layout.{store_of, IsStore};

    ghost view = { store_of };

    ghost invariant = { IsStore };
}

impl Store {
    /// A store without clauses or reserved variables. Takes no memory.
    pub fn new(alloc: Global) -> Store
        ensures { result ≡ record { clauses = []; fresh = []; vars = 0 } }
    {
        Store {
            arena: Arena::new(alloc),
            ring: WatchRing::new(alloc),
            watched: 0,
            vars: 0,
        }
    }

    /// Reserves the variables 1 to `vars`; those that are reserved already stay so. Takes eight
    /// bytes for each variable up to 8,388,607.
    pub fn reserve(&mut self, vars: u32) -> Result<(), AllocError>
        ensures clauses { self.new.clauses ≡ self.old.clauses }
        ensures fresh { self.new.fresh ≡ self.old.fresh }
        ensures ok { OnOk result (self.new.vars ≡ max self.old.vars vars) }
        ensures err { OnErr result (self.new ≡ self.old) }
    {
        if vars <= self.vars {
            return Ok(());
        }
        let clauses = self.arena.len();
        self.ring.reserve(vars, clauses)?;
        self.vars = vars;
        Ok(())
    }

    /// Adds a clause behind the others and answers its number. It is new to propagation. Besides
    /// what the arena takes it takes eight bytes. More than 2,147,483,647 clauses are answered as
    /// want of memory.
    pub fn add(&mut self, clause: &Clause, tag: u32, origin: Ref) -> Result<usize, AllocError>
        requires { AreWithin self.old.vars clause.now }
        ensures number { IfOk result (λ id. id ≡ length self.old.clauses) }
        ensures ok { OnOk result
            (self.new.clauses
            ≡ self.old.clauses ++ record { lits = clause.now; tag = tag; origin = origin } ∷ []) }
        ensures fresh { OnOk result
            (self.new.fresh ≡ self.old.fresh ++ length self.old.clauses ∷ []) }
        ensures vars { self.new.vars ≡ self.old.vars }
        ensures err { OnErr result (self.new ≡ self.old) }
    {
        let Some(clauses) = self.arena.len().checked_add(1) else {
            return Err(AllocError);
        };
        self.ring.reserve(self.vars, clauses)?;
        self.arena.add(clause, tag, origin)
    }

    /// Takes back the clauses behind the first `len`, which are new to propagation. Where there are
    /// no more than that, nothing changes. Takes no memory.
    pub fn truncate(&mut self, len: usize)
        requires { AreNewFrom self.old len }
        ensures clauses { self.new.clauses ≡ take len self.old.clauses }
        ensures fresh { self.new.fresh ≡ filter (λ id. nat_lt id len) self.old.fresh }
        ensures vars { self.new.vars ≡ self.old.vars }
    {
        self.arena.truncate(len);
    }

    /// Keeps exactly the clauses that have `true` in `keep`, in order, numbered anew from 0; there
    /// is one item for each clause, and the trail is at level 0. All clauses are new to propagation
    /// then, and no literal counts as looked at. The reasons on the trail name clauses by their old
    /// numbers, so they mean nothing any more; at level 0 a founded trail needs none. Takes no
    /// memory.
    pub fn keep(&mut self, trail: &mut Trail, keep: &[bool])
        requires size { length keep.now ≡ length self.old.clauses }
        requires depth { trail.old.depth ≡ 0 }
        ensures clauses { self.new.clauses ≡ kept_of keep.now self.old.clauses }
        ensures fresh { AreNewFrom self.new 0 }
        ensures vars { self.new.vars ≡ self.old.vars }
        ensures trail { trail.new ≡ record trail.old { looked = 0 } }
        ensures fit { AreFit self.new trail.new }
        ensures founded { IsFounded
            (lits_of_each self.new.clauses) trail.new.entries trail.new.depth }
    {
        // Brings that no level is above the depth.
        let _ = trail.depth();
        self.arena.keep(keep);
        self.ring.clear();
        self.watched = 0;
        trail.mark(0);
    }

    /// The clauses.
    pub fn arena(&self) -> &Arena
        ensures value { result.now ≡ self.now.clauses }
        ensures reserved { AreAllWithin self.now.vars self.now.clauses }
        ensures fresh { All (λ id. id < length self.now.clauses) self.now.fresh }
    {
        &self.arena
    }
}

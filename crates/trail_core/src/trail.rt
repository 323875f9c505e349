//! The trail.

ghost use Rattle.std.specs.Prelude.{◌≡◌, ◌≢◌, ℕ, ◌==◌, ◌+◌, ◌-◌, ◌<◌, ◌≤◌, min, max, List, [], ◌∷◌, ◌++◌};
ghost use Rattle.std.specs.Prelude.{length, take, All, Option, Some, None, IfSome, IfNone, OnOk};
ghost use Rattle.std.specs.Prelude.{OnErr, IsTrue, not};
ghost use Rattle.sat_base.specs.Lit.{variable};
ghost use Rattle.trail_core.specs.Trail.{Entry, IsTrail, IsFree, StandsAt, entry_at, lits_of};
ghost use Rattle.trail_core.specs.Trail.{up_to};
ghost use Rattle.trail_core.specs.UnderTrail.{IsUnassigned};
ghost use Rattle.trail_core.specs.Truth.{HasTruth, truth_of};
ghost use Rattle.trail_core.specs.Standing.{IsStandingOf};

use crate::counts::Counts;
use crate::standing::Standing;
use crate::truth::Truth;
use sat_base::Lit;
use std::alloc::{AllocError, Global};
use std::marker::Model;

// No literal has a greater variable, so no place is made for one.
const GREATEST_VARIABLE: u32 = 8_388_607;

/// The literals that are true, in the order in which they became so, each with its level and its
/// reason. A level above 0 begins with a decision; a reason is the number of the clause that forced
/// the literal. Contracts see a trail as its entries, its depth, how many variables are reserved,
/// and how many of its first literals propagation has looked at.
#[derive(Debug, Drop)]
pub struct Trail {
    values: Vec<Truth>,
    standings: Vec<Standing>,
    lits: Vec<Lit>,
    count: usize,
    looked: usize,
    depth: u32,
    vars: u32,
    counts: Counts,
}

impl Model for Trail {
    ghost use Rattle.trail_core.specs.Trail.{TrailView};

    ghost Value = { TrailView };

    ghost use Rattle.trail_core.specs.Layout.{trail_of, IsKept};

    ghost view = { trail_of };

    ghost invariant = { IsKept };
}

impl Trail {
    /// A trail at level 0 without literals or reserved variables. Takes no memory.
    pub fn new(alloc: Global) -> Trail
        ensures entries { result.entries ≡ [] }
        ensures depth { result.depth ≡ 0 }
        ensures vars { result.vars ≡ 0 }
        ensures looked { result.looked ≡ 0 }
    {
        Trail {
            values: Vec::new(alloc),
            standings: Vec::new(alloc),
            lits: Vec::new(alloc),
            count: 0,
            looked: 0,
            depth: 0,
            vars: 0,
            counts: Counts::none(),
        }
    }

    /// Reserves the variables 1 to `vars`; those that are reserved already stay so. Takes 22 bytes
    /// for each variable up to 8,388,607.
    pub fn reserve(&mut self, vars: u32) -> Result<(), AllocError>
        ensures entries { self.new.entries ≡ self.old.entries }
        ensures depth { self.new.depth ≡ self.old.depth }
        ensures looked { self.new.looked ≡ self.old.looked }
        ensures ok { OnOk result (self.new.vars ≡ max self.old.vars vars) }
        ensures err { OnErr result (self.new ≡ self.old) }
    {
        if vars <= self.vars {
            return Ok(());
        }
        let places = vars.min(GREATEST_VARIABLE) as usize;
        self.lits.resize(places, filler())?;
        self.standings.resize(places, Standing::new(0, 0, None))?;
        self.values.resize(2 * places, Truth::Unassigned)?;
        self.vars = vars;
        Ok(())
    }

    /// Makes a literal true at the present level, with the number of the clause that forces it, if
    /// one does. Takes no memory.
    pub fn assign(&mut self, lit: Lit, reason: Option<usize>)
        requires reserved { variable lit ≤ self.old.vars }
        requires unassigned { IsUnassigned (lits_of self.old.entries) lit }
        ensures entries { self.new.entries
            ≡ self.old.entries
            ++ record { lit = lit; level = self.old.depth; reason = reason } ∷ [] }
        ensures depth { self.new.depth ≡ self.old.depth }
        ensures vars { self.new.vars ≡ self.old.vars }
        ensures looked { self.new.looked ≡ self.old.looked }
    {
        let code = lit.code() as usize;
        let opposite = lit.negated().code() as usize;
        self.values[code - 2] = Truth::True;
        self.values[opposite - 2] = Truth::False;
        self.standings[lit.var() as usize - 1] = Standing::new(
            self.count as u32,
            self.depth,
            reason,
        );
        self.lits[self.count] = lit;
        self.count += 1;
        self.counts.assignments = self.counts.assignments.saturating_add(1);
    }

    /// Opens the next level. Takes no memory.
    pub fn open_level(&mut self)
        requires { self.old.depth < self.old.vars }
        ensures entries { self.new.entries ≡ self.old.entries }
        ensures depth { self.new.depth ≡ self.old.depth + 1 }
        ensures vars { self.new.vars ≡ self.old.vars }
        ensures looked { self.new.looked ≡ self.old.looked }
    {
        let depth = self.depth + 1;
        self.set_depth(depth);
        self.counts.decisions = self.counts.decisions.saturating_add(1);
    }

    /// Takes back exactly the literals of higher levels than this one, which is the present level
    /// then. The number of literals that were looked at is lowered to those that are left. Takes no
    /// memory.
    pub fn back_to(&mut self, level: u32)
        requires { level ≤ self.old.depth }
        ensures entries { self.new.entries ≡ up_to level self.old.entries }
        ensures depth { self.new.depth ≡ level }
        ensures vars { self.new.vars ≡ self.old.vars }
        ensures looked { self.new.looked ≡ min self.old.looked (length self.new.entries) }
    {
        while self.ends_above(level) {
            self.drop_last();
        }
        self.set_depth(level);
    }

    // Whether the last literal is of a higher level.
    fn ends_above(&self, level: u32) -> bool
        ensures last { IsTrue result
            → (0 < length self.now.entries)
            × (level < (entry_at self.now.entries (length self.now.entries - 1)).level) }
        ensures none { IsTrue (not result) → All (λ entry. entry.level ≤ level) self.now.entries }
        ensures trail { IsTrail self.now }
    {
        if self.count == 0 {
            return false;
        }
        let last = self.lits[self.count - 1];
        self.standings[last.var() as usize - 1].level > level
    }

    // Takes the last literal back.
    fn drop_last(&mut self)
        requires { 0 < length self.old.entries }
        ensures entries { self.new.entries ≡ take (length self.old.entries - 1) self.old.entries }
        ensures depth { self.new.depth ≡ self.old.depth }
        ensures vars { self.new.vars ≡ self.old.vars }
        ensures looked { self.new.looked ≡ min self.old.looked (length self.old.entries - 1) }
    {
        self.count -= 1;
        self.looked = self.looked.min(self.count);
        let last = self.lits[self.count];
        self.values[last.code() as usize - 2] = Truth::Unassigned;
        self.values[last.negated().code() as usize - 2] = Truth::Unassigned;
    }

    fn set_depth(&mut self, depth: u32)
        requires below { All (λ entry. entry.level ≤ depth) self.old.entries }
        requires shallow { depth ≤ self.old.vars }
        ensures { self.new ≡ record self.old { depth = depth } }
    {
        self.depth = depth;
    }

    /// The level that is open, 0 where none was opened.
    pub fn depth(&self) -> u32
        ensures value { result ≡ self.now.depth }
        ensures trail { IsTrail self.now }
    {
        self.depth
    }

    /// How many of its first literals propagation has looked at: the clauses that watch their
    /// opposites were gone through.
    pub fn looked(&self) -> usize
        ensures value { result ≡ self.now.looked }
        ensures trail { IsTrail self.now }
    {
        self.looked
    }

    /// Whether as many literals are true as variables are reserved, so that no variable is free.
    pub fn is_complete(&self) -> bool
        ensures value { result ≡ (length self.now.entries == self.now.vars) }
        ensures trail { IsTrail self.now }
    {
        self.count == self.vars as usize
    }

    /// Sets how many of the first literals propagation has looked at. Takes no memory.
    pub fn mark(&mut self, n: usize)
        requires { n ≤ length self.old.entries }
        ensures { self.new ≡ record self.old { looked = n } }
    {
        self.looked = n;
    }

    /// The literals that are true, in the order in which they became so.
    pub fn lits(&self) -> &[Lit]
        ensures value { result.now ≡ lits_of self.now.entries }
        ensures trail { IsTrail self.now }
    {
        &self.lits[..self.count]
    }

    /// The truth value of a literal whose variable is reserved. One load.
    pub fn truth(&self, lit: Lit) -> Truth
        requires { variable lit ≤ self.now.vars }
        ensures value { HasTruth (lits_of self.now.entries) lit result }
        ensures trail { IsTrail self.now }
    {
        self.values[lit.code() as usize - 2]
    }

    /// The truth value of a literal, `None` where it is unassigned or its variable isn't reserved.
    pub fn value(&self, lit: Lit) -> Option<bool>
        ensures value { HasTruth (lits_of self.now.entries) lit (truth_of result) }
        ensures trail { IsTrail self.now }
    {
        let places = self.values.len();
        let index = lit.code() as usize - 2;
        if index >= places {
            return None;
        }
        match self.values[index] {
            Truth::True => Some(true),
            Truth::False => Some(false),
            Truth::Unassigned => None,
        }
    }

    /// The place on the trail, counted from 0, of the literal that assigns the variable; `None`
    /// where none does.
    pub fn place(&self, var: u32) -> Option<usize>
        ensures found { IfSome result (λ place. StandsAt self.now.entries var place) }
        ensures free { IfNone result (IsFree self.now.entries var) }
    {
        let standing = self.standing(var)?;
        Some(standing.place() as usize)
    }

    /// The level at which the variable was assigned, `None` where it isn't.
    pub fn level(&self, var: u32) -> Option<u32>
        ensures found { (place : ℕ) → StandsAt self.now.entries var place
            → result ≡ Some (entry_at self.now.entries place).level }
        ensures free { IsFree self.now.entries var → result ≡ None }
    {
        let standing = self.standing(var)?;
        Some(standing.level)
    }

    /// The number of the clause that forced the variable; `None` where none did, or it isn't
    /// assigned.
    pub fn reason(&self, var: u32) -> Option<usize>
        ensures found { (place : ℕ) → StandsAt self.now.entries var place
            → result ≡ (entry_at self.now.entries place).reason }
        ensures free { IsFree self.now.entries var → result ≡ None }
    {
        let standing = self.standing(var)?;
        standing.reason()
    }

    /// How many levels were opened since the trail was made, those that were taken back included.
    /// The count stands still at the greatest `u64`. It is for measuring: no contract tells it.
    pub fn decisions(&self) -> u64 {
        self.counts.decisions
    }

    /// How many literals were made true since the trail was made, those that were taken back
    /// included. The count stands still at the greatest `u64`. It is for measuring: no contract
    /// tells it.
    pub fn assignments(&self) -> u64 {
        self.counts.assignments
    }

    // What is kept of the variable, where it is assigned.
    fn standing(&self, var: u32) -> Option<Standing>
        ensures found { IfSome result (λ standing. IsStandingOf self.now.entries var standing) }
        ensures free { IfNone result (IsFree self.now.entries var) }
        ensures trail { IsTrail self.now }
    {
        let places = self.values.len();
        if var == 0 {
            return None;
        }
        let index = 2 * (var as usize) - 2;
        if index >= places {
            return None;
        }
        if self.values[index] == Truth::Unassigned {
            return None;
        }
        Some(self.standings[var as usize - 1])
    }
}

// Any literal, for places that have none yet.
fn filler() -> Lit {
    Lit::of(1).unwrap()
}

#[cfg(test)]
mod tests;

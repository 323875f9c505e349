//! Scores of variables.

ghost use Rattle.std.specs.Prelude.{◌≡◌, ℕ, ◌+◌, ◌<◌, ◌≤◌, ◌≢◌, min, max, List, ◌++◌, IfSome};
ghost use Rattle.std.specs.Prelude.{IfNone, OnOk, OnErr};
ghost use Rattle.trail_core.specs.Trail.{IsFree, Entry};
ghost use Rattle.pick_core.specs.Assigned.{AreAllAssigned};
ghost use Rattle.pick_core.specs.Scores.{score_of, rank_of, Waits, IsBestFree, ScoresView};
ghost use Rattle.pick_core.specs.Scores.{FreeWait, scaled, grown};
ghost use Rattle.pick_core.specs.Heap.{entry_rank};

use crate::heap::{Heap, SHIFT};
use std::alloc::{AllocError, Global};
use std::marker::Model;
use trail_core::Trail;

// An increment doesn't pass 2^58, so that scores have room for some time.
const MOST_INCREMENT: u64 = 288_230_376_151_711_744;

/// The variables by scores that decay: a bump adds the increment to a score, and the increment
/// grows by a sixteenth at each decay, so that late bumps count for more. Contracts see the score
/// and the rank of each variable, which decides among equal scores, the variables that wait in the
/// heap, and the increment.
#[derive(Debug, Drop)]
pub struct Scores {
    heap: Heap,
    increment: u64,
}

impl Model for Scores {
    ghost use Rattle.pick_core.specs.HeapLayout.{scores_of, AreKept};
    ghost use Rattle.pick_core.specs.Scores.{ScoresView};

    ghost Value = { ScoresView };

    ghost view = { scores_of };

    ghost invariant = { AreKept };
}

impl Scores {
    /// Scores of no variable. Takes no memory.
    pub fn new(alloc: Global) -> Scores
        ensures vars { result.vars ≡ 0 }
        ensures increment { result.increment ≡ 262144 }
    {
        Scores {
            heap: Heap::new(alloc),
            increment: 262_144,
        }
    }

    /// Enters the variables up to `vars` that aren't entered yet, one after another in ascending
    /// order, each at the end or each at the front: of equal scores the one nearer the end comes
    /// first. They have the score 0 and wait. Takes 20 bytes for each variable. More than
    /// 2,147,483,647 variables are answered as want of memory.
    pub fn reserve(&mut self, vars: u32, at_end: bool) -> Result<(), AllocError>
        ensures scores { (var : ℕ) → score_of self.new var ≡ score_of self.old var }
        ensures ranks { (var : ℕ) → 1 ≤ var → var ≤ self.old.vars
            → rank_of self.new var ≡ rank_of self.old var }
        ensures entered { OnOk result ((var : ℕ) → self.old.vars < var → var ≤ vars
            → rank_of self.new var ≡ entry_rank at_end var) }
        ensures waits { (var : ℕ) → Waits self.old var → Waits self.new var }
        ensures new { OnOk result ((var : ℕ) → self.old.vars < var → var ≤ vars
            → Waits self.new var) }
        ensures increment { self.new.increment ≡ self.old.increment }
        ensures ok { OnOk result (self.new.vars ≡ max self.old.vars vars) }
        ensures err { OnErr result (self.new ≡ self.old) }
    {
        self.heap.reserve(vars, at_end)
    }

    /// How many variables were entered.
    pub fn vars(&self) -> u32
        ensures { result ≡ self.now.vars }
    {
        self.heap.items.len() as u32
    }

    /// Adds the increment to the score of a variable; a score stands still at the greatest `u64`.
    /// Takes no memory.
    pub fn bump(&mut self, var: u32)
        requires low { 1 ≤ var }
        requires high { var ≤ self.old.vars }
        ensures score { score_of self.new var
            ≡ min (score_of self.old var + self.old.increment) 18446744073709551615 }
        ensures others { (other : ℕ) → 1 ≤ other → other ≢ var
            → score_of self.new other ≡ score_of self.old other }
        ensures ranks { (other : ℕ) → rank_of self.new other ≡ rank_of self.old other }
        ensures waits { (other : ℕ) → Waits self.old other → Waits self.new other }
        ensures increment { self.new.increment ≡ self.old.increment }
        ensures vars { self.new.vars ≡ self.old.vars }
    {
        let increment = self.increment;
        self.heap.add(var, increment);
    }

    /// Lets later bumps count for more: the increment grows by a sixteenth. Where it passes 2^58,
    /// all scores and the increment are divided by 2^40, rounded down, and all variables wait
    /// again. Takes no memory.
    pub fn decay(&mut self)
        ensures scores { (var : ℕ) → score_of self.new var
            ≡ scaled self.old.increment (score_of self.old var) }
        ensures ranks { (var : ℕ) → rank_of self.new var ≡ rank_of self.old var }
        ensures waits { (var : ℕ) → Waits self.old var → Waits self.new var }
        ensures increment { self.new.increment
            ≡ scaled self.old.increment (grown self.old.increment) }
        ensures vars { self.new.vars ≡ self.old.vars }
    {
        let grown = self.increment + self.increment / 16;
        if grown <= MOST_INCREMENT {
            self.increment = grown;
            return;
        }
        self.heap.scale_down();
        self.increment = grown >> SHIFT;
    }

    /// Says that a variable became free: it waits. Takes no memory.
    pub fn put_back(&mut self, var: u32)
        requires low { 1 ≤ var }
        requires high { var ≤ self.old.vars }
        ensures is_in { Waits self.new var }
        ensures scores { (other : ℕ) → score_of self.new other ≡ score_of self.old other }
        ensures ranks { (other : ℕ) → rank_of self.new other ≡ rank_of self.old other }
        ensures waits { (other : ℕ) → Waits self.old other → Waits self.new other }
        ensures increment { self.new.increment ≡ self.old.increment }
        ensures vars { self.new.vars ≡ self.old.vars }
    {
        self.heap.push(var);
    }

    /// A free variable that no free one outscores, of equal ones the one that was entered nearest
    /// the end; `None` exactly where all that were entered are assigned. It waits still; assigned
    /// ones before it don't.
    pub fn next_free(&mut self, trail: &Trail) -> Option<u32>
        requires { FreeWait trail.now.entries self.old }
        ensures some { IfSome result (λ var. IsBestFree trail.now.entries self.old var) }
        ensures none { IfNone result (AreAllAssigned trail.now.entries self.old.vars) }
        ensures waits { FreeWait trail.now.entries self.new }
        ensures scores { (var : ℕ) → score_of self.new var ≡ score_of self.old var }
        ensures ranks { (var : ℕ) → rank_of self.new var ≡ rank_of self.old var }
        ensures increment { self.new.increment ≡ self.old.increment }
        ensures vars { self.new.vars ≡ self.old.vars }
    {
        self.heap.first_free(trail)
    }
}

/// Free variables wait on while literals are added to a trail.
pub fn free_variables_wait_on()
    ensures { (entries more : List Entry) (view : ScoresView) → FreeWait entries view
        → FreeWait (entries ++ more) view }
{}

#[cfg(test)]
mod tests;

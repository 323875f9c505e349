//! The queue of variables.

ghost use Rattle.std.specs.Prelude.{◌≡◌, ℕ, ◌≤◌, max, List, [], ◌∷◌, ◌++◌, IfSome, IfNone, OnOk};
ghost use Rattle.std.specs.Prelude.{OnErr};
ghost use Rattle.trail_core.specs.Trail.{Entry};
ghost use Rattle.pick_core.specs.Queue.{IsQueue, without, entered};
ghost use Rattle.pick_core.specs.Assigned.{AreAssigned, AreAllAssigned, IsNearestFree};

use crate::links::{Links, enter_all, first_free, last, move_to_end};
use std::alloc::{AllocError, Global};
use std::marker::Model;
use trail_core::Trail;

/// The variables in the order in which they are decided: the one nearest the end comes first. What
/// was bumped stands at the end, as in the queues of solvers that move variables to the front. A
/// search goes on where the last one ended, so the caller says by `rewind` where variables became
/// free again. Contracts see the queue as the list of its variables, each once, from the end on,
/// and the front of this list that a search skips.
#[derive(Debug, Drop)]
pub struct Queue {
    links: Vec<Links>,
    cursor: u32,
    vars: u32,
}

impl Model for Queue {
    ghost use Rattle.pick_core.specs.Queue.{QueueView};

    ghost Value = { QueueView };

    ghost use Rattle.pick_core.specs.Layout.{queue_of, IsKept};

    ghost view = { queue_of };

    ghost invariant = { IsKept };
}

impl Queue {
    /// A queue without variables. Takes no memory.
    pub fn new(alloc: Global) -> Queue
        ensures order { result.order ≡ [] }
        ensures skipped { result.skipped ≡ [] }
        ensures vars { result.vars ≡ 0 }
    {
        Queue {
            links: Vec::new(alloc),
            cursor: 0,
            vars: 0,
        }
    }

    /// Enters the variables up to `vars` that aren't entered yet, one after another in ascending
    /// order, each at the end or each at the front. Searches skip nothing then. Takes eight bytes
    /// for each variable, and eight more.
    pub fn reserve(&mut self, vars: u32, at_end: bool) -> Result<(), AllocError>
        ensures order { OnOk result
            (self.new.order ≡ entered at_end self.old.order self.old.vars vars) }
        ensures skipped { OnOk result (self.new.skipped ≡ []) }
        ensures vars { OnOk result (self.new.vars ≡ max self.old.vars vars) }
        ensures err { OnErr result (self.new ≡ self.old) }
    {
        if vars <= self.vars {
            self.rewind();
            return Ok(());
        }
        self.links.resize(vars as usize + 1, Links::none())?;
        enter_all(&mut self.links, self.vars, vars, at_end);
        self.vars = vars;
        self.cursor = last(&self.links);
        Ok(())
    }

    /// Moves a variable to the end. Searches skip nothing then, so the variable may be free. Takes
    /// no memory.
    pub fn bump(&mut self, var: u32)
        requires low { 1 ≤ var }
        requires high { var ≤ self.old.vars }
        ensures order { self.new.order ≡ var ∷ without var self.old.order }
        ensures skipped { self.new.skipped ≡ [] }
        ensures vars { self.new.vars ≡ self.old.vars }
    {
        move_to_end(&mut self.links, var);
        self.cursor = var;
    }

    /// Says that variables may have become free: searches skip nothing then. A constant number of
    /// steps.
    pub fn rewind(&mut self)
        ensures order { self.new.order ≡ self.old.order }
        ensures skipped { self.new.skipped ≡ [] }
        ensures vars { self.new.vars ≡ self.old.vars }
    {
        self.cursor = last(&self.links);
    }

    /// The free variable nearest the end; `None` exactly where all that were entered are assigned.
    /// Walks on from where the last search ended, over variables that are assigned.
    pub fn next_free(&mut self, trail: &Trail) -> Option<u32>
        requires { AreAssigned trail.now.entries self.old.skipped }
        ensures some { IfSome result (λ var.
            IsNearestFree trail.now.entries self.old.order var) }
        ensures none { IfNone result (AreAllAssigned trail.now.entries self.old.vars) }
        ensures queue { IsQueue self.new }
        ensures order { self.new.order ≡ self.old.order }
        ensures skipped { AreAssigned trail.now.entries self.new.skipped }
        ensures vars { self.new.vars ≡ self.old.vars }
    {
        let var = first_free(&self.links, self.cursor, trail);
        self.cursor = var;
        if var == 0 {
            return None;
        }
        Some(var)
    }
}

/// What a queue skips stays assigned while literals are added to a trail.
pub fn skipped_stay_assigned()
    ensures { (entries more : List Entry) (vars : List ℕ) → AreAssigned entries vars
        → AreAssigned (entries ++ more) vars }
{}

#[cfg(test)]
mod tests;

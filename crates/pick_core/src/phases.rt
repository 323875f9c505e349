//! Saved phases.

ghost use Rattle.std.specs.Prelude.{◌≡◌, ◌≢◌, ℕ, ◌≤◌, max, OnOk, OnErr};
ghost use Rattle.pick_core.specs.Phases.{phase_of};

use std::alloc::{AllocError, Global};
use std::marker::Model;

/// For each variable the phase with which it is decided: true or false. A byte for each variable.
/// Contracts see the phases as a function of the variable, and the number of reserved variables.
#[derive(Debug, Drop)]
pub struct Phases {
    phases: Vec<bool>,
    first: bool,
}

impl Model for Phases {
    ghost use Rattle.pick_core.specs.Phases.{PhasesView};

    ghost Value = { PhasesView };

    ghost use Rattle.pick_core.specs.Layout.{phases_of};

    ghost view = { phases_of };
}

impl Phases {
    /// Phases of no variable. A variable that is reserved later has the phase `first` until another
    /// one is saved. Takes no memory.
    pub fn new(alloc: Global, first: bool) -> Phases
        ensures phases { (var : ℕ) → phase_of result var ≡ first }
        ensures vars { result.vars ≡ 0 }
    {
        Phases {
            phases: Vec::new(alloc),
            first,
        }
    }

    /// Reserves the variables 1 to `vars`; those that are reserved already stay so.
    pub fn reserve(&mut self, vars: u32) -> Result<(), AllocError>
        ensures phases { (var : ℕ) → phase_of self.new var ≡ phase_of self.old var }
        ensures ok { OnOk result (self.new.vars ≡ max self.old.vars vars) }
        ensures err { OnErr result (self.new ≡ self.old) }
    {
        if vars as usize <= self.phases.len() {
            return Ok(());
        }
        self.phases.resize(vars as usize, self.first)
    }

    /// The phase of a reserved variable.
    pub fn get(&self, var: u32) -> bool
        requires low { 1 ≤ var }
        requires high { var ≤ self.now.vars }
        ensures { result ≡ phase_of self.now var }
    {
        self.phases[var as usize - 1]
    }

    /// Saves the phase of a reserved variable.
    pub fn set(&mut self, var: u32, phase: bool)
        requires low { 1 ≤ var }
        requires high { var ≤ self.old.vars }
        ensures saved { phase_of self.new var ≡ phase }
        ensures others { (other : ℕ) → 1 ≤ other → other ≢ var
            → phase_of self.new other ≡ phase_of self.old other }
        ensures vars { self.new.vars ≡ self.old.vars }
    {
        self.phases[var as usize - 1] = phase;
    }
}

#[cfg(test)]
mod tests;

//! Calls that fail as it was planned.
ghost use Rattle.std.specs.Prelude.{◌≡◌, ◌<◌, ◌≤◌, ◌⊎◌, ◌↔◌, IsErr, OnErr, OnOk};
ghost use Rattle.run_io.specs.Fault.{last_count, one_more, HasCause};
ghost use Rattle.run_io.specs.Script.{new_script, after_answer, after_fault, NextFails};

use crate::Failed;
use std::marker::Model;

/// Numbers the calls of an object from 1, makes those that are listed fail, and counts the faults.
/// Both counts stand still at the last number of a `u64`.
#[derive(Drop)]
pub(crate) struct Script {
    fails: Vec<u64>,
    calls: u64,
    faults: u64,
}

impl Model for Script {
    ghost use Rattle.run_io.specs.Script.{ScriptState};

    ghost Value = { ScriptState };

    ghost view = { λ a. record { fails = a.fails.items; calls = a.calls; faults = a.faults } };
}

impl Script {
    pub(crate) fn new(fails: Vec<u64>) -> Script
        ensures { result ≡ new_script fails.items }
    {
        Script {
            fails,
            calls: 0,
            faults: 0,
        }
    }

    /// Counts a call, and its fault where its number is listed.
    pub(crate) fn call(&mut self) -> Result<(), Failed>
        ensures fails { IsErr result ↔ NextFails self.old }
        ensures answered { OnOk result (self.new ≡ after_answer self.old) }
        ensures failed { OnErr result (self.new ≡ after_fault self.old) }
        ensures cause { HasCause self.old.faults self.new.faults result }
    {
        self.calls = self.calls.saturating_add(1);
        if self.fails.contains(&self.calls) {
            return Err(self.fault());
        }
        Ok(())
    }

    /// Counts a fault of the call that was counted last.
    pub(crate) fn fault(&mut self) -> Failed
        ensures state { self.new ≡ record self.old { faults = one_more self.old.faults } }
        ensures later { self.old.faults ≤ self.new.faults }
        ensures rises { (self.old.faults < self.new.faults) ⊎ (self.new.faults ≡ last_count) }
    {
        self.faults = self.faults.saturating_add(1);
        Failed
    }
}

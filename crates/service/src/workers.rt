//! The calls of workers, and the bell.

ghost use Rattle.std.specs.Prelude.{◌≡◌, ◌<◌, ℕ, true, false, List, [], ◌∷◌, ◌++◌, All, map};
ghost use Rattle.entry_core.specs.declared.entries.Entry.{Entry};
ghost use Rattle.entry_core.specs.Settled.{settled_jobs};
ghost use Rattle.entry_core.specs.Legal.{IsLegal};
ghost use Rattle.turn_lock.specs.declared.view.Look.TheVariants.{Turn};
ghost use Rattle.turn_lock.specs.Entries.{AddsOwn, entries_of};
ghost use Rattle.turn_lock.specs.Passes.{IsOf};
ghost use Rattle.service.specs.Passes.{caller_of, IsReady, IsWorkerPass, Keeps, Knows};

use crate::service::{Service, WorkerPass};
use board_core::Board;
use std::sync::Wait;
use turn_lock::Held;

impl Service {
    /// Waits for the turn, and takes the board out. The pass has then seen the whole journal. Only
    /// `leave` ends the hold.
    pub fn hold<R: Wait>(&self, rt: &R, pass: &mut WorkerPass) -> Held<Board>
        requires ready { IsReady self.now.lock pass.old }
        requires worker { IsWorkerPass self.now.lock pass.old }
        ensures rules { result.value.rules ≡ self.now.lock.basis }
        ensures known { Knows pass.old result.value }
        ensures pass { (taken : List ℕ) × All (λ word. 0 < word) taken
            × (pass.new ≡ record pass.old {
              seen = result.value.journal;
              idle = false;
              looks = pass.old.looks ++ map Turn taken ++ Turn 0 ∷ [];
            }) }
    {
        self.lock.enter(rt, pass)
    }

    /// Puts the board of a hold back, and rings the bell where an entry was added.
    pub fn leave(&self, pass: &mut WorkerPass, held: Held<Board>)
        requires lock { IsOf self.now.lock pass.old }
        requires worker { IsWorkerPass self.now.lock pass.old }
        requires busy { pass.old.idle ≡ false }
        requires rules { held.value.rules ≡ self.now.lock.basis }
        requires added { AddsOwn caller_of pass.old.number pass.old.seen held.value.journal }
        ensures keeps { Keeps self.now.lock pass.old pass.new }
        ensures pass { pass.new ≡ record pass.old {
          seen = held.value.journal;
          own = entries_of caller_of pass.old.number held.value.journal;
          floor = settled_jobs held.value.rules held.value.journal;
          idle = true;
        } }
        ensures own { (added : List Entry) × (held.value.journal ≡ pass.old.seen ++ added)
            × (pass.new.own ≡ pass.old.own ++ added) }
        ensures legal { IsLegal held.value.rules held.value.journal }
    {
        self.put_back(pass, held);
    }

    /// The number of the bell, to sleep on: read it before the hold whose answer was that there is
    /// nothing to do.
    pub fn bell(&self) -> u64 {
        self.bell.read()
    }

    /// Raises the bell's number by one, and wakes all who sleep on it.
    pub fn ring(&self) {
        self.bell.ring();
    }

    /// Sleeps where the bell still has this number. May return for no reason.
    pub fn sleep<R: Wait>(&self, rt: &R, bell: u64) {
        self.bell.sleep(rt, bell);
    }
}

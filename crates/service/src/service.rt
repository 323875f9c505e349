//! The service itself: how it is made, and how it ends.

ghost use Rattle.std.specs.Prelude.{◌≡◌, ◌+◌, ◌<◌, ◌≤◌, true, false, List, length, ◌++◌, All, IfOk};
ghost use Rattle.entry_core.specs.declared.entries.Entry.{Entry};
ghost use Rattle.entry_core.specs.Settled.{settled_jobs};
ghost use Rattle.entry_core.specs.Legal.{AreWithinLimits, IsLegal};
ghost use Rattle.turn_lock.specs.Entries.{AddsOwn, entries_of};
ghost use Rattle.turn_lock.specs.Passes.{IsOf, AreNew, AreIdleInOrder};
ghost use Rattle.service.specs.Passes.{caller_of, IsReady, IsClientPass, IsWorkerPass, Knows};

use crate::bell::Bell;
use board_core::Board;
use entry_core::Rules;
use std::alloc::{AllocError, Global};
use std::sync::Wait;
use turn_lock::{Held, Pass, TurnLock};

/// The right of one client to call the service. It may go to another thread.
pub type ClientPass = Pass<Board>;

/// The right of one worker to call the service. It may go to another thread.
pub type WorkerPass = Pass<Board>;

/// A board behind a lock. Contracts see it by its lock, whose ground is the rules.
#[derive(Drop)]
pub struct Service {
    pub(crate) lock: TurnLock<Board>,
    pub(crate) rules: Rules,
    pub(crate) bell: Bell,
    pub(crate) alloc: Global,
    pub ghost tied: { rules ≡ lock.basis },
}

impl Service {
    /// A service with an empty board, its clients' passes, numbered from 1 on, and its workers'
    /// passes, which have the numbers after these.
    pub fn make(
        alloc: Global,
        rules: Rules,
    ) -> Result<(Service, Vec<ClientPass>, Vec<WorkerPass>), AllocError>
        requires { AreWithinLimits rules }
        ensures rules { IfOk result (λ made. made.0.lock.basis ≡ rules) }
        ensures number { IfOk result
            (λ made. made.0.lock.passes ≡ rules.clients + rules.workers) }
        ensures lengths { IfOk result
            (λ made. (length made.1.items ≡ rules.clients)
            × (length made.2.items ≡ rules.workers)) }
        ensures passes { IfOk result
            (λ made. AreNew made.0.lock 0 (made.1.items ++ made.2.items)) }
        ensures clients { IfOk result
            (λ made. All (λ pass. IsReady made.0.lock pass × IsClientPass made.0.lock pass)
            made.1.items) }
        ensures workers { IfOk result
            (λ made. All (λ pass. IsReady made.0.lock pass × IsWorkerPass made.0.lock pass)
            made.2.items) }
    {
        let board = Board::new(alloc, rules)?;
        let (lock, mut clients) = TurnLock::make(alloc, board, rules.clients + rules.workers)?;
        let workers = clients.split_off(rules.clients as usize)?;
        let service = Service {
            lock,
            rules,
            bell: Bell::new(),
            alloc,
        };
        Ok((service, clients, workers))
    }

    /// The rules that the service was made with.
    pub fn rules(&self) -> &Rules
        ensures { result.now ≡ self.now.lock.basis }
    {
        &self.rules
    }

    /// Puts the board of a hold back. Rings the bell where an entry was added.
    pub(crate) fn put_back(&self, pass: &mut Pass<Board>, held: Held<Board>)
        requires lock { IsOf self.now.lock pass.old }
        requires busy { pass.old.idle ≡ false }
        requires basis { held.value.rules ≡ self.now.lock.basis }
        requires added { AddsOwn caller_of pass.old.number pass.old.seen held.value.journal }
        ensures pass { pass.new ≡ record pass.old {
          seen = held.value.journal;
          own = entries_of caller_of pass.old.number held.value.journal;
          floor = settled_jobs held.value.rules held.value.journal;
          idle = true;
        } }
        ensures own { (added : List Entry) × (held.value.journal ≡ pass.old.seen ++ added)
            × (pass.new.own ≡ pass.old.own ++ added) }
        ensures legal { IsLegal held.value.rules held.value.journal }
    {
        let mut held = held;
        let entries = held.value().journal().len() as u64;
        let has_grown = self.bell.has_grown(entries);
        self.lock.leave(pass, held);
        if has_grown {
            self.bell.ring();
        }
    }

    /// Ends the service, for which all its passes come back, each kind in the order of the numbers.
    /// What each pass knows is true of the board.
    pub fn shut(self, clients: Vec<ClientPass>, workers: Vec<WorkerPass>) -> Board
        requires all { length (clients.items ++ workers.items) ≡ self.lock.passes }
        requires passes { AreIdleInOrder self.lock (clients.items ++ workers.items) }
        ensures rules { result.rules ≡ self.lock.basis }
        ensures legal { IsLegal result.rules result.journal }
        ensures callers { All (λ entry. (0 < caller_of entry)
            × (caller_of entry ≤ self.lock.passes)) result.journal }
        ensures passes { All (λ pass. Knows pass result) (clients.items ++ workers.items) }
    {
        let Service {
            lock,
            rules: _,
            bell,
            alloc: _,
        } = self;
        drop(bell);
        let board = lock.close(clients, workers);
        // A board tells that its journal is legal.
        let _ = board.journal();
        board
    }
}

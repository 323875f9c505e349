//! The calls of clients. But for `settled` and `try_result` they wait for the turn.

ghost use Rattle.std.specs.Prelude.{◌≡◌, ◌+◌, ◌<◌, ◌≤◌, ℕ, List, Some, [], ◌∷◌, ◌++◌, All, map};
ghost use Rattle.std.specs.Prelude.{IfOk, OnOk, IfErr, OnErr};
ghost use Rattle.std.specs.Arc.{arc_value};
ghost use Rattle.trace_core.specs.Known.{item_at};
ghost use Rattle.entry_core.specs.Journal.{closing_place, segments};
ghost use Rattle.turn_lock.specs.declared.view.Look.TheVariants.{Turn, Count};
ghost use Rattle.turn_lock.specs.Passes.{IsOf};
ghost use Rattle.board_core.specs.Replies.{HasVerdict, HasOutcome, IsNoJob, IsLookFault};
ghost use Rattle.board_core.specs.Replies.{IsAskFault, IsCancelFault};
ghost use Rattle.service.specs.Passes.{IsReady, IsClientPass, Keeps, board_of};
ghost use Rattle.service.specs.Holds.{Looked};
ghost use Rattle.service.specs.Replies.{HasAdded, HasClosed, HasCancelled, HasWaited};
ghost use Rattle.service.specs.Replies.{IsAddRefusal, LookedAtOnce, IsTryFault};

use crate::faults::TryFault;
use crate::service::{ClientPass, Service};
use board_core::{AddFault, AskFault, Board, CancelFault, LookFault};
use entry_core::{Clauses, Outcome, Segment, Verdict};
use sat_base::Cube;
use std::alloc::AllocError;
use std::sync::{Arc, Wait};

impl Service {
    /// Adds a job of these clauses and this cube, and answers its number. The first refusal that
    /// stands is answered, but want of memory comes first where it meets the segment itself.
    pub fn add<R: Wait>(
        &self,
        rt: &R,
        pass: &mut ClientPass,
        clauses: Clauses,
        cube: Cube,
    ) -> Result<u32, AddFault>
        requires ready { IsReady self.now.lock pass.old }
        requires client { IsClientPass self.now.lock pass.old }
        ensures keeps { Keeps self.now.lock pass.old pass.new }
        ensures added { IfOk result (HasAdded self.now.lock pass.old pass.new
            (record { clauses = clauses; cube = cube })) }
        ensures looked { IfErr result (λ fault. Looked self.now.lock pass.old pass.new) }
        ensures refused { IfErr result (IsAddRefusal (board_of self.now.lock pass.new.seen)
            (record { clauses = clauses; cube = cube })) }
    {
        let Ok(segment) = Arc::new(self.alloc, Segment { clauses, cube }) else {
            self.look(rt, pass);
            return Err(AddFault::Memory);
        };
        let mut held = self.lock.enter(rt, pass);
        let answer = held.value().add(pass.number(), segment);
        self.put_back(pass, held);
        answer
    }

    // A hold that adds nothing.
    fn look<R: Wait>(&self, rt: &R, pass: &mut ClientPass)
        requires ready { IsReady self.now.lock pass.old }
        ensures keeps { Keeps self.now.lock pass.old pass.new }
        ensures looked { Looked self.now.lock pass.old pass.new }
    {
        let held = self.lock.enter(rt, pass);
        self.put_back(pass, held);
    }

    /// The verdict of a job.
    pub fn result<R: Wait>(
        &self,
        rt: &R,
        pass: &mut ClientPass,
        job: u32,
    ) -> Result<Verdict, AskFault>
        requires ready { IsReady self.now.lock pass.old }
        requires client { IsClientPass self.now.lock pass.old }
        ensures keeps { Keeps self.now.lock pass.old pass.new }
        ensures looked { Looked self.now.lock pass.old pass.new }
        ensures ok { IfOk result (HasVerdict (board_of self.now.lock pass.new.seen) job) }
        ensures refused { IfErr result (IsAskFault (board_of self.now.lock pass.new.seen) job) }
    {
        let mut held = self.lock.enter(rt, pass);
        let answer = held.value().verdict(job);
        self.put_back(pass, held);
        answer
    }

    /// A settled job: what was added with it, and its verdict, by one hold.
    pub fn settled_job<R: Wait>(
        &self,
        rt: &R,
        pass: &mut ClientPass,
        job: u32,
    ) -> Result<(Arc<Segment>, Verdict), AskFault>
        requires ready { IsReady self.now.lock pass.old }
        requires client { IsClientPass self.now.lock pass.old }
        ensures keeps { Keeps self.now.lock pass.old pass.new }
        ensures looked { Looked self.now.lock pass.old pass.new }
        ensures segment { IfOk result
            (λ found. item_at (segments pass.new.seen) job ≡ Some (arc_value found.0)) }
        ensures verdict { IfOk result
            (λ found. HasVerdict (board_of self.now.lock pass.new.seen) job found.1) }
        ensures refused { IfErr result (IsAskFault (board_of self.now.lock pass.new.seen) job) }
    {
        let mut held = self.lock.enter(rt, pass);
        let answer = look_up(held.value(), job);
        self.put_back(pass, held);
        answer
    }

    /// Says that no more jobs come, unless that was said before: then it answers the place of that
    /// entry.
    pub fn close_input<R: Wait>(&self, rt: &R, pass: &mut ClientPass) -> Result<(), u64>
        requires ready { IsReady self.now.lock pass.old }
        requires client { IsClientPass self.now.lock pass.old }
        ensures keeps { Keeps self.now.lock pass.old pass.new }
        ensures closed { OnOk result (HasClosed self.now.lock pass.old pass.new) }
        ensures looked { OnErr result (Looked self.now.lock pass.old pass.new) }
        ensures refused { IfErr result (λ place. closing_place pass.new.seen ≡ Some place) }
    {
        let mut held = self.lock.enter(rt, pass);
        let answer = held.value().close_input(pass.number());
        self.put_back(pass, held);
        answer
    }

    /// Cancels a job that isn't settled.
    pub fn cancel<R: Wait>(
        &self,
        rt: &R,
        pass: &mut ClientPass,
        job: u32,
    ) -> Result<(), CancelFault>
        requires ready { IsReady self.now.lock pass.old }
        requires client { IsClientPass self.now.lock pass.old }
        ensures keeps { Keeps self.now.lock pass.old pass.new }
        ensures cancelled { OnOk result (HasCancelled self.now.lock pass.old pass.new job) }
        ensures looked { OnErr result (Looked self.now.lock pass.old pass.new) }
        ensures refused { IfErr result (IsCancelFault (board_of self.now.lock pass.new.seen) job) }
    {
        let mut held = self.lock.enter(rt, pass);
        let answer = held.value().cancel(pass.number(), job);
        self.put_back(pass, held);
        answer
    }

    /// The outcome of a job's verdict, by one hold.
    fn outcome<R: Wait>(
        &self,
        rt: &R,
        pass: &mut ClientPass,
        job: u32,
    ) -> Result<Outcome, LookFault>
        requires ready { IsReady self.now.lock pass.old }
        ensures keeps { Keeps self.now.lock pass.old pass.new }
        ensures looked { Looked self.now.lock pass.old pass.new }
        ensures ok { IfOk result (HasOutcome (board_of self.now.lock pass.new.seen) job) }
        ensures refused { IfErr result (IsLookFault (board_of self.now.lock pass.new.seen) job) }
    {
        let mut held = self.lock.enter(rt, pass);
        let answer = held.value().outcome(job);
        self.put_back(pass, held);
        answer
    }

    /// Waits until a job is settled, and answers the outcome of its verdict. Where there is no such
    /// job at the first look, it answers the number of jobs. Sleeps on the bell between two looks.
    pub fn wait_result<R: Wait>(
        &self,
        rt: &R,
        pass: &mut ClientPass,
        job: u32,
    ) -> Result<Outcome, u32>
        requires ready { IsReady self.now.lock pass.old }
        requires client { IsClientPass self.now.lock pass.old }
        ensures keeps { Keeps self.now.lock pass.old pass.new }
        ensures ok { IfOk result (HasWaited self.now.lock pass.old pass.new job) }
        ensures looked { OnErr result (Looked self.now.lock pass.old pass.new) }
        ensures refused { IfErr result (IsNoJob (board_of self.now.lock pass.new.seen) job) }
    {
        for _ in rt.forever() {
            let bell = self.bell();
            match self.outcome(rt, pass, job) {
                Ok(outcome) => return Ok(outcome),
                Err(LookFault::NoSuchJob(jobs)) => return Err(jobs),
                Err(LookFault::NotYet) => self.sleep(rt, bell),
            }
        }
        unreachable!()
    }

    /// How many jobs are settled, by one look and without the turn.
    pub fn settled(&self, pass: &mut ClientPass) -> u64
        requires lock { IsOf self.now.lock pass.old }
        requires client { IsClientPass self.now.lock pass.old }
        ensures least { pass.old.floor ≤ result }
        ensures pass { pass.new ≡ record pass.old {
          floor = result;
          looks = pass.old.looks ++ Count result ∷ [];
        } }
    {
        self.lock.count(pass)
    }

    /// The outcome of a job's verdict where the turn is free, by one try and without waiting.
    pub fn try_result(&self, pass: &mut ClientPass, job: u32) -> Result<Outcome, TryFault>
        requires ready { IsReady self.now.lock pass.old }
        requires client { IsClientPass self.now.lock pass.old }
        ensures keeps { Keeps self.now.lock pass.old pass.new }
        ensures looked { OnOk result (LookedAtOnce self.now.lock pass.old pass.new) }
        ensures ok { IfOk result (HasOutcome (board_of self.now.lock pass.new.seen) job) }
        ensures refused { IfErr result (IsTryFault self.now.lock pass.old pass.new job) }
    {
        let mut held = match self.lock.try_enter(pass) {
            Ok(held) => held,
            Err(holder) => return Err(TryFault::Busy(holder)),
        };
        let answer = held.value().outcome(job);
        self.put_back(pass, held);
        match answer {
            Ok(outcome) => Ok(outcome),
            Err(LookFault::NoSuchJob(jobs)) => Err(TryFault::NoSuchJob(jobs)),
            Err(LookFault::NotYet) => Err(TryFault::NotYet),
        }
    }
}

// A settled job of the board.
fn look_up(board: &Board, job: u32) -> Result<(Arc<Segment>, Verdict), AskFault>
    ensures segment { IfOk result
        (λ found. item_at (segments board.now.journal) job ≡ Some (arc_value found.0)) }
    ensures verdict { IfOk result (λ found. HasVerdict board.now job found.1) }
    ensures refused { IfErr result (IsAskFault board.now job) }
{
    let verdict = board.verdict(job)?;
    match board.segment(job) {
        Ok(segment) => Ok((segment, verdict)),
        Err(AllocError) => Err(AskFault::Memory),
    }
}

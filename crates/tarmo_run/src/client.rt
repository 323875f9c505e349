//! What a client does: it adds jobs to a board, says that no more come, cancels, and asks for
//! verdicts.

ghost use Rattle.std.specs.Prelude.{◌≡◌, ◌++◌, ◌∷◌, [], None, true, IfOk, IfSome, OnOk, OnErr};
ghost use Rattle.entry_core.specs.Journal.{is_closed, segments};
ghost use Rattle.entry_core.specs.Legal.{IsClient};
ghost use Rattle.entry_core.specs.Settled.{cancelled, settled};
ghost use Rattle.board_core.specs.Replies.{HasVerdict, IsJob};
ghost use Rattle.tarmo_run.specs.Client.{Adds, AddsFirst, clauses_read, queries_on};
ghost use Rattle.tarmo_run.specs.Growth.{HasJobsMore, HasNoJobMore, StayResting};
ghost use Rattle.tarmo_run.specs.Output.{AreSettled};

use board_core::{AskFault, Board};
use entry_core::{Clauses, Segment, Verdict};
use icnf_text::{Numbered, Statement};
use sat_base::{Clause, Cube};
use std::alloc::{AllocError, Global};
use std::sync::Arc;

// The first caller of a board, and its only client.
const CLIENT: u32 = 1;

/// The clauses behind the last cube that was read.
#[derive(Drop)]
pub(crate) struct Client {
    alloc: Global,
    pending: Vec<Clause>,
}

impl Client {
    /// A client that has read nothing.
    pub(crate) fn new(alloc: Global) -> Client
        ensures { result.pending.items ≡ [] }
    {
        Client {
            alloc,
            pending: Vec::new(alloc),
        }
    }

    /// Adds a job to the board for each cube of the statements. Where memory runs out, the jobs
    /// before are there.
    pub(crate) fn add_all(
        &mut self,
        board: &mut Board,
        list: Vec<Numbered>,
    ) -> Result<(), AllocError>
        requires client { IsClient board.old.rules 1 }
        ensures more { HasJobsMore board.old board.new }
        ensures first { AddsFirst self.old board.old board.new list.items }
        ensures all { OnOk result (Adds self.old board.old self.new board.new list.items) }
    {
        for numbered in list {
            self.add(board, numbered)?;
        }
        Ok(())
    }

    fn add(&mut self, board: &mut Board, numbered: Numbered) -> Result<(), AllocError>
        requires client { IsClient board.old.rules 1 }
        ensures more { HasJobsMore board.old board.new }
        ensures none { OnErr result (queries_on board.new ≡ queries_on board.old) }
        ensures all { OnOk result (Adds self.old board.old self.new board.new (numbered ∷ [])) }
    {
        match numbered.statement {
            Statement::Clause(clause) => self.keep(clause),
            Statement::Cube(cube) => self.add_job(board, cube),
        }
    }

    /// Keeps the clause for the next job.
    pub(crate) fn keep(&mut self, clause: Clause) -> Result<(), AllocError>
        ensures kept { OnOk result
            (self.new.pending.items ≡ self.old.pending.items ++ clause ∷ []) }
        ensures err { OnErr result (self.new.pending.items ≡ self.old.pending.items) }
    {
        if self.pending.push(clause).is_err() {
            return Err(AllocError);
        }
        Ok(())
    }

    /// Takes the clauses since the last job.
    pub(crate) fn take_pending(&mut self) -> Vec<Clause>
        ensures taken { result.items ≡ self.old.pending.items }
        ensures none_left { self.new.pending.items ≡ [] }
    {
        std::mem::replace(&mut self.pending, Vec::new(self.alloc))
    }

    // Adds the job of a cube, with the clauses since the last one. What a text can have a board can
    // have, so only want of memory refuses it.
    fn add_job(&mut self, board: &mut Board, cube: Cube) -> Result<(), AllocError>
        requires client { IsClient board.old.rules 1 }
        ensures more { HasJobsMore board.old board.new }
        ensures added { OnOk result (segments board.new.journal ≡ segments board.old.journal
            ++ record { clauses = self.old.pending.items; cube = cube } ∷ []) }
        ensures err { OnErr result (board.new ≡ board.old) }
        ensures none_left { self.new.pending.items ≡ [] }
    {
        let clauses = self.take_pending();
        let segment = Segment {
            clauses: Clauses::of(clauses),
            cube,
        };
        let segment = Arc::new(self.alloc, segment)?;
        if board.add(CLIENT, segment).is_err() {
            return Err(AllocError);
        }
        Ok(())
    }
}

/// Says that no more jobs come, so that the board is closed.
pub(crate) fn close_input(board: &mut Board)
    requires client { IsClient board.old.rules 1 }
    ensures more { HasNoJobMore board.old board.new }
    ensures resting { StayResting board.old board.new }
    ensures cancelled { cancelled board.new.journal ≡ cancelled board.old.journal }
    ensures closed { is_closed board.new.journal ≡ true }
{
    // A refusal says that it was said before.
    let _ = board.close_input(CLIENT);
}

/// Says that no more jobs come, and cancels each job that isn't settled, so that each is.
pub(crate) fn give_up(board: &mut Board)
    requires client { IsClient board.old.rules 1 }
    ensures more { HasNoJobMore board.old board.new }
    ensures resting { StayResting board.old board.new }
    ensures settled { AreSettled board.new }
    ensures closed { is_closed board.new.journal ≡ true }
{
    close_input(board);
    cancel_all(board);
}

// Cancels each job of the board that isn't settled.
fn cancel_all(board: &mut Board)
    requires client { IsClient board.old.rules 1 }
    ensures more { HasNoJobMore board.old board.new }
    ensures resting { StayResting board.old board.new }
    ensures settled { AreSettled board.new }
{
    let jobs = board.jobs();
    let mut job = 0;
    while job < jobs {
        job += 1;
        // A refusal says that the job is settled.
        let _ = board.cancel(CLIENT, job);
    }
}

/// The verdict of a job, None where it isn't settled.
pub(crate) fn verdict_of(board: &Board, job: u32) -> Result<Option<Verdict>, AllocError>
    ensures given { IfOk result (λ found. IfSome found (HasVerdict board.now job)) }
    ensures none { IfOk result (λ found. found ≡ None → IsJob board.now job →
        settled board.now.rules board.now.journal job ≡ None) }
{
    match board.verdict(job) {
        Ok(verdict) => Ok(Some(verdict)),
        Err(AskFault::Memory) => Err(AllocError),
        Err(AskFault::NotYet) => Ok(None),
        Err(AskFault::NoSuchJob(_)) => Ok(None),
    }
}

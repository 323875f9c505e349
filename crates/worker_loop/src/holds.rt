//! The holds of a worker but those of its slices.

ghost use Rattle.std.specs.Prelude.{◌≡◌, ℕ, ◌+◌, ◌≤◌, length, map, Some, IfOk, OnErr};
ghost use Rattle.std.specs.Arc.{arc_value};
ghost use Rattle.trace_core.specs.Known.{item_at};
ghost use Rattle.entry_core.specs.Journal.{segments};
ghost use Rattle.entry_core.specs.Legal.{IsLegal};
ghost use Rattle.entry_core.specs.Schedule.{IsNext};
ghost use Rattle.board_core.specs.Replies.{IsJob};
ghost use Rattle.service.specs.Holds.{Looked};
ghost use Rattle.service.specs.Passes.{Keeps, board_of};
ghost use Rattle.worker_loop.specs.Attempts.{EndsBy, event_of};
ghost use Rattle.worker_loop.specs.Fits.{Fits};
ghost use Rattle.worker_loop.specs.Segments.{AreSegments};
ghost use Rattle.worker_loop.specs.Slices.{GoesOnOpen, HasOpen, IsAtWork};
ghost use Rattle.worker_loop.specs.Work.{EndsInHold, HasTaken, MayEnd, MayEndWith, Rests};
ghost use Rattle.worker_loop.specs.Work.{TakesInHold};

use crate::bench::Bench;
use crate::ending::end_attempt;
use crate::ends::End;
use crate::segments::segments_up_to;
use crate::sharing::read_packets;
use board_core::{Board, Task};
use entry_core::Segment;
use service::{Service, WorkerPass};
use std::alloc::{AllocError, Global};
use std::sync::{Arc, Wait};

/// One hold: takes a job, if there is one.
pub(crate) fn take_once<R: Wait>(
    rt: &R,
    service: &Service,
    pass: &mut WorkerPass,
) -> Result<Task, AllocError>
    requires work { IsAtWork service.now.lock pass.old }
    requires rests { Rests service.now.lock pass.old }
    ensures work { IsAtWork service.now.lock pass.new }
    ensures keeps { Keeps service.now.lock pass.old pass.new }
    ensures taken { IfOk result (HasTaken service.now.lock pass.new) }
    ensures err { OnErr result (Rests service.now.lock pass.new) }
    ensures hold { IfOk result (TakesInHold service.now.lock pass.old pass.new) }
    ensures looked { OnErr result (Looked service.now.lock pass.old pass.new) }
    ensures wanted { OnErr result
        ((job : ℕ) × IsNext service.now.lock.basis pass.new.seen job) }
{
    let mut held = service.hold(rt, pass);
    let answer = held.value().take(pass.number());
    service.leave(pass, held);
    answer
}

/// What an attempt takes from the board.
#[derive(Debug, Drop)]
pub(crate) struct Needs {
    /// What was added with its job.
    pub(crate) segment: Arc<Segment>,
    /// What was added with the jobs behind the one that is loaded, up to its job.
    pub(crate) unloaded: Vec<Arc<Segment>>,
}

/// One hold: reads the packets, and takes what is needed for the job.
pub(crate) fn look_once<R: Wait>(
    rt: &R,
    alloc: Global,
    service: &Service,
    pass: &mut WorkerPass,
    bench: &mut Bench,
    job: u32,
) -> Result<Needs, AllocError>
    requires work { IsAtWork service.now.lock pass.old }
    requires fits { Fits bench.old pass.old.seen }
    requires job { IsJob (board_of service.now.lock pass.old.seen) job }
    requires up_to { bench.old.session.solver.bound ≤ job }
    ensures on { (number : ℕ) → HasOpen service.now.lock pass.old number job
        → GoesOnOpen service.now.lock pass.old pass.new number job }
    ensures fits { Fits bench.new pass.new.seen }
    ensures session { bench.new.session ≡ bench.old.session }
    ensures some_conflict { 1 ≤ service.now.lock.basis.conflicts }
    ensures segment { IfOk result (λ needs.
        item_at (segments pass.new.seen) job ≡ Some (arc_value needs.segment)) }
    ensures unloaded { IfOk result (λ needs. AreSegments pass.new.seen
        bench.old.session.solver.bound (map arc_value needs.unloaded.items)) }
    ensures count { IfOk result
        (λ needs. bench.old.session.solver.bound + length needs.unloaded.items ≡ job) }
{
    let mut held = service.hold(rt, pass);
    let answer = look(alloc, held.value(), bench, job);
    service.leave(pass, held);
    answer
}

fn look(alloc: Global, board: &Board, bench: &mut Bench, job: u32) -> Result<Needs, AllocError>
    requires fits { Fits bench.old board.now.journal }
    requires job { IsJob board.now job }
    requires up_to { bench.old.session.solver.bound ≤ job }
    ensures fits { Fits bench.new board.now.journal }
    ensures session { bench.new.session ≡ bench.old.session }
    ensures some_conflict { 1 ≤ board.now.rules.conflicts }
    ensures segment { IfOk result (λ needs.
        item_at (segments board.now.journal) job ≡ Some (arc_value needs.segment)) }
    ensures unloaded { IfOk result (λ needs. AreSegments board.now.journal
        bench.old.session.solver.bound (map arc_value needs.unloaded.items)) }
    ensures count { IfOk result
        (λ needs. bench.old.session.solver.bound + length needs.unloaded.items ≡ job) }
{
    // The rules are within their limits.
    let _ = board.rules();
    read_packets(board, bench)?;
    let unloaded = segments_up_to(alloc, board, bench.session.bound(), job)?;
    let segment = board.segment(job)?;
    Ok(Needs { segment, unloaded })
}

/// One hold: ends an attempt in this way, or as starved where there is no end, and drops it where
/// its job is settled.
pub(crate) fn end_once<R: Wait>(
    rt: &R,
    service: &Service,
    pass: &mut WorkerPass,
    number: u32,
    end: Option<End>,
)
    requires work { IsAtWork service.now.lock pass.old }
    requires may { MayEndWith service.now.lock pass.old number end }
    ensures work { IsAtWork service.now.lock pass.new }
    ensures keeps { Keeps service.now.lock pass.old pass.new }
    ensures rests { Rests service.now.lock pass.new }
    ensures ended { EndsInHold service.now.lock pass.old pass.new number (event_of number end) }
{
    let mut held = service.hold(rt, pass);
    end_open(held.value(), pass.number(), number, end);
    service.leave(pass, held);
}

/// What is done in the hold at the end of an attempt, which is open if the journal is legal.
fn end_open(board: &mut Board, caller: u32, number: u32, end: Option<End>)
    requires { IsLegal board.old.rules board.old.journal → MayEnd board.old caller number end }
    ensures { EndsBy board.old board.new caller number (event_of number end) }
{
    // Every board tells that its journal is legal.
    let _ = board.journal();
    end_attempt(board, caller, number, end);
}

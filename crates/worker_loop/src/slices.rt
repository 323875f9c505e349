//! Slices of an attempt on a service: a round, and then a hold in which the worker shares.

ghost use Rattle.std.specs.Prelude.{◌≡◌, ℕ, ◌+◌, ◌-◌, ◌<◌, min, is_some, length, All, IfOk, OnOk};
ghost use Rattle.entry_core.specs.Legal.{IsWorker};
ghost use Rattle.entry_core.specs.Settled.{settled};
ghost use Rattle.board_core.specs.Replies.{IsJob};
ghost use Rattle.service.specs.Passes.{board_of};
ghost use Rattle.worker_loop.specs.declared.slices.Turn.TheVariants as turn;
ghost use Rattle.worker_loop.specs.Fits.{Fits};
ghost use Rattle.worker_loop.specs.Shared.{HasShared, HasSharedMore, IsLesson};
ghost use Rattle.worker_loop.specs.Slices.{HasOpen, HasSliced, HoldsShared, IsAtWork, IsSlice};
ghost use Rattle.worker_loop.specs.Slices.{IsUnderWay, SharedInHold, turn_with};

use crate::attempt::Attempt;
use crate::attempts::end_of;
use crate::bench::Bench;
use crate::ends::End;
use crate::importing::import_waiting;
use crate::rounds::make_round;
use crate::sharing::share;
use board_core::Board;
use entry_core::{Answer, Clauses};
use service::{Service, WorkerPass};
use std::alloc::{AllocError, Global};
use std::sync::{Arc, Wait};

/// What comes of a slice.
#[derive(Debug, Drop)]
pub enum Turn {
    /// The attempt goes on.
    Going,
    /// The job has this answer; a refuted part has its trace where traces are kept.
    Answer(Arc<Answer>),
    /// The attempt has learnt these clauses, as many as the rules allow, and no answer.
    Spent(Arc<Clauses>),
    /// The job is settled.
    Overtaken,
}

/// Makes one round of at most 256 learnt clauses, and never more than the budget leaves, and then
/// one hold. In that hold it shares each clause of at most 8 literals that the round learnt, and
/// reads all packets; afterwards the session holds the clause of each that was on the board, with
/// a tag at most the job. Whatever it answers, it adds packets alone. After want of memory nothing
/// is promised of the bench and the attempt.
pub fn slice<R: Wait>(
    rt: &R,
    alloc: Global,
    service: &Service,
    pass: &mut WorkerPass,
    bench: &mut Bench,
    attempt: &mut Attempt,
) -> Result<Turn, AllocError>
    requires work { IsAtWork service.now.lock pass.old }
    requires under_way { IsUnderWay service.now.lock pass.old bench.old attempt.old }
    requires left { length attempt.old.learnt.items < service.now.lock.basis.conflicts }
    ensures sliced { HasSliced service.now.lock pass.old pass.new
        attempt.old.number attempt.old.job }
    ensures hold { OnOk result (SharedInHold service.now.lock pass.old pass.new) }
    ensures under_way { OnOk result
        (IsUnderWay service.now.lock pass.new bench.new attempt.new) }
    ensures turn { IfOk result (IsSlice service.now.lock.basis pass.new.seen
        bench.old bench.new attempt.old attempt.new) }
    ensures going { IfOk result (λ given. given ≡ turn.Going
        → length attempt.new.learnt.items ≡ length attempt.old.learnt.items
        + min 256 (service.now.lock.basis.conflicts - length attempt.old.learnt.items)) }
    ensures holds { OnOk result
        (HoldsShared bench.new.session.solver pass.new.seen attempt.old.job) }
{
    let rules = *service.rules();
    let before = attempt.learnt.len();
    let round = make_round(bench, attempt, rules.conflicts)?;
    let end = end_of(alloc, bench, attempt, rules.conflicts, rules.traces, round)?;
    let learnt = &attempt.learnt[before..];
    let is_settled = share_once(rt, alloc, service, pass, bench, attempt.job, learnt)?;
    import_waiting(bench)?;
    // What every session keeps is told with its steps.
    let _ = bench.session.steps();
    Ok(turn_of(is_settled, end))
}

/// One hold: shares the short clauses of the steps of these numbers, reads all packets, and tells
/// whether the job is settled.
fn share_once<R: Wait>(
    rt: &R,
    alloc: Global,
    service: &Service,
    pass: &mut WorkerPass,
    bench: &mut Bench,
    job: u32,
    learnt: &[u64],
) -> Result<bool, AllocError>
    requires work { IsAtWork service.now.lock pass.old }
    requires fits { Fits bench.old pass.old.seen }
    requires job { IsJob (board_of service.now.lock pass.old.seen) job }
    requires lessons { All (IsLesson bench.old.session.solver) learnt.now }
    ensures sliced { (number : ℕ) → HasOpen service.now.lock pass.old number job
        → HasSliced service.now.lock pass.old pass.new number job }
    ensures hold { SharedInHold service.now.lock pass.old pass.new }
    ensures shared { OnOk result (HasShared (board_of service.now.lock pass.new.seen)
        bench.old bench.new learnt.now) }
    ensures settled { IfOk result (λ is_settled. is_settled
        ≡ is_some (settled service.now.lock.basis pass.new.seen job)) }
{
    let mut held = service.hold(rt, pass);
    let answer = share_and_look(alloc, held.value(), pass.number(), bench, job, learnt);
    service.leave(pass, held);
    answer
}

/// What is done in the hold of a slice.
fn share_and_look(
    alloc: Global,
    board: &mut Board,
    caller: u32,
    bench: &mut Bench,
    job: u32,
    learnt: &[u64],
) -> Result<bool, AllocError>
    requires worker { IsWorker board.old.rules caller }
    requires fits { Fits bench.old board.old.journal }
    requires job { IsJob board.old job }
    requires lessons { All (IsLesson bench.old.session.solver) learnt.now }
    ensures more { HasSharedMore board.old board.new caller }
    ensures shared { OnOk result (HasShared board.new bench.old bench.new learnt.now) }
    ensures settled { IfOk result (λ is_settled. is_settled
        ≡ is_some (settled board.new.rules board.new.journal job)) }
{
    share(alloc, board, caller, bench, learnt)?;
    Ok(is_settled(board, job))
}

fn is_settled(board: &Board, job: u32) -> bool
    requires { IsJob board.now job }
    ensures { result ≡ is_some (settled board.now.rules board.now.journal job) }
{
    board.outcome(job).is_ok()
}

fn turn_of(is_settled: bool, end: Option<End>) -> Turn
    ensures { result ≡ turn_with is_settled end }
{
    if is_settled {
        return Turn::Overtaken;
    }
    match end {
        None => Turn::Going,
        Some(End::Answered(answer)) => Turn::Answer(answer),
        Some(End::Spent(learnt)) => Turn::Spent(learnt),
    }
}

//! A worker on a service.

ghost use Rattle.std.specs.Prelude.{◌≡◌, ℕ, ◌<◌, ◌≤◌, [], None, length, IfOk, IfSome, IsSome};
ghost use Rattle.std.specs.Prelude.{OnErr, OnOk};
ghost use Rattle.entry_core.specs.Schedule.{IsNext};
ghost use Rattle.entry_core.specs.Settled.{settled};
ghost use Rattle.board_core.specs.Replies.{IsDone};
ghost use Rattle.service.specs.Passes.{Keeps, board_of};
ghost use Rattle.worker_loop.specs.Ends.{IsEnd};
ghost use Rattle.worker_loop.specs.Fits.{Fits};
ghost use Rattle.worker_loop.specs.Kept.{KeepsLearnt};
ghost use Rattle.worker_loop.specs.Rounds.{IsLearntBefore, IsOfLearnt};
ghost use Rattle.worker_loop.specs.Slices.{GoesOnOpen, HasLearntSince, HasOpen, IsAtWork};
ghost use Rattle.worker_loop.specs.Slices.{IsUnderWay};
ghost use Rattle.worker_loop.specs.Work.{HasLookedLast, HasOnly, HasTried, IsPursued, Rests};
ghost use Rattle.worker_loop.specs.Working.{EndsEachOnce};

use crate::attempt::Attempt;
use crate::bench::Bench;
use crate::ends::End;
use crate::holds::{end_once, look_once, take_once};
use crate::importing::import_waiting;
use crate::loading::begin_anew_past;
use crate::segments::load_all;
use crate::slices::{Turn, slice};
use board_core::Task;
use run_io::Gate;
use service::{Service, WorkerPass};
use std::alloc::{AllocError, Global};
use std::sync::Wait;
use std::thread::Threads;

/// Makes attempts at the jobs of the board until its input is closed and all its jobs are settled.
/// Where no job is to take, it sleeps on the service's bell. Want of memory within an attempt ends
/// it as starved, and the work goes on with a new session; so the error comes from taking a job
/// alone. The gate is passed before an attempt, and after its end.
pub fn work<R: Threads + Wait + Sync, G: Gate>(
    rt: &R,
    alloc: Global,
    service: &Service,
    pass: &mut WorkerPass,
    variant: u32,
    gate: &G,
) -> Result<(), AllocError>
    requires work { IsAtWork service.now.lock pass.old }
    requires rests { Rests service.now.lock pass.old }
    ensures work { IsAtWork service.now.lock pass.new }
    ensures keeps { Keeps service.now.lock pass.old pass.new }
    ensures rests { Rests service.now.lock pass.new }
    ensures done { OnOk result (IsDone (board_of service.now.lock pass.new.seen)) }
    ensures ended { EndsEachOnce (board_of service.now.lock pass.new.seen) pass.new.number }
    // The error comes from taking a job alone.
    ensures wanted { OnErr result
        ((job : ℕ) × IsNext service.now.lock.basis pass.new.seen job) }
    // Whatever it answers, its last hold added nothing.
    ensures looked { HasLookedLast service.now.lock pass.old pass.new }
{
    let mut bench = Bench::new(alloc, variant);
    for _ in rt.forever() {
        let bell = service.bell();
        match take_once(rt, service, pass)? {
            Task::Done => return Ok(()),
            Task::Idle => service.sleep(rt, bell),
            Task::Job { job, attempt } => {
                gate.before(rt, pass.number(), job);
                try_job(rt, alloc, service, pass, &mut bench, variant, job, attempt);
                gate.after(rt, pass.number(), job);
            }
        }
    }
    unreachable!()
}

/// Makes an attempt that was begun, and ends it. After want of memory it ends as starved, and the
/// bench is a new one.
fn try_job<R: Wait>(
    rt: &R,
    alloc: Global,
    service: &Service,
    pass: &mut WorkerPass,
    bench: &mut Bench,
    variant: u32,
    job: u32,
    number: u32,
)
    requires work { IsAtWork service.now.lock pass.old }
    requires open { HasOnly service.now.lock pass.old number job }
    requires fits { Fits bench.old pass.old.seen }
    ensures work { IsAtWork service.now.lock pass.new }
    ensures keeps { Keeps service.now.lock pass.old pass.new }
    ensures rests { Rests service.now.lock pass.new }
    ensures fits { Fits bench.new pass.new.seen }
    ensures tried { HasTried service.now.lock pass.old pass.new number job bench.old bench.new }
{
    match pursue_job_on(rt, alloc, service, pass, bench, variant, job, number) {
        Ok(end) => end_once(rt, service, pass, number, end),
        Err(AllocError) => {
            end_once(rt, service, pass, number, None);
            *bench = Bench::new(alloc, variant);
        }
    }
}

/// Brings the bench to the job, and pursues the attempt up to its end; there is none where the job
/// was settled meanwhile.
fn pursue_job_on<R: Wait>(
    rt: &R,
    alloc: Global,
    service: &Service,
    pass: &mut WorkerPass,
    bench: &mut Bench,
    variant: u32,
    job: u32,
    number: u32,
) -> Result<Option<End>, AllocError>
    requires work { IsAtWork service.now.lock pass.old }
    requires open { HasOpen service.now.lock pass.old number job }
    requires fits { Fits bench.old pass.old.seen }
    ensures on { GoesOnOpen service.now.lock pass.old pass.new number job }
    ensures fits { OnOk result (Fits bench.new pass.new.seen) }
    ensures end { IfOk result
        (λ end. IfSome end (IsEnd service.now.lock.basis pass.new.seen job)) }
    ensures pursued { IfOk result (IsPursued service.now.lock.basis pass.new.seen job
        bench.old.session.solver bench.new.session.solver) }
{
    let mut attempt = start_attempt(rt, alloc, service, pass, bench, variant, job, number)?;
    slice_to_the_end(rt, alloc, service, pass, bench, &mut attempt)
}

/// Brings the bench to the job of an attempt that was begun, so that it can be sliced.
pub(crate) fn start_attempt<R: Wait>(
    rt: &R,
    alloc: Global,
    service: &Service,
    pass: &mut WorkerPass,
    bench: &mut Bench,
    variant: u32,
    job: u32,
    number: u32,
) -> Result<Attempt, AllocError>
    requires work { IsAtWork service.now.lock pass.old }
    requires open { HasOpen service.now.lock pass.old number job }
    requires fits { Fits bench.old pass.old.seen }
    ensures on { GoesOnOpen service.now.lock pass.old pass.new number job }
    ensures attempt { IfOk result (λ attempt. (attempt.number ≡ number) × (attempt.job ≡ job)) }
    ensures under_way { IfOk result (IsUnderWay service.now.lock pass.new bench.new) }
    ensures left { IfOk result
        (λ attempt. length attempt.learnt.items < service.now.lock.basis.conflicts) }
    ensures nothing { IfOk result (λ attempt. attempt.learnt.items ≡ []) }
    ensures learnt { OnOk result (IsLearntBefore bench.old.session.solver job
        bench.new.session.solver.learnt) }
    ensures kept { OnOk result (bench.old.session.solver.bound ≤ job
        → KeepsLearnt bench.old.session.solver bench.new.session.solver) }
{
    begin_anew_past(alloc, variant, bench, job);
    let needs = look_once(rt, alloc, service, pass, bench, job)?;
    load_all(bench, &needs.unloaded)?;
    import_waiting(bench)?;
    Ok(Attempt {
        job,
        number,
        cube: needs.segment.cube.copy(alloc)?,
        learnt: Vec::new(alloc),
    })
}

/// Slices until the attempt has its end, or its job is settled: then there is none.
fn slice_to_the_end<R: Wait>(
    rt: &R,
    alloc: Global,
    service: &Service,
    pass: &mut WorkerPass,
    bench: &mut Bench,
    attempt: &mut Attempt,
) -> Result<Option<End>, AllocError>
    requires work { IsAtWork service.now.lock pass.old }
    requires under_way { IsUnderWay service.now.lock pass.old bench.old attempt.old }
    requires left { length attempt.old.learnt.items < service.now.lock.basis.conflicts }
    ensures on { GoesOnOpen service.now.lock pass.old pass.new
        attempt.old.number attempt.old.job }
    ensures fits { OnOk result (Fits bench.new pass.new.seen) }
    ensures end { IfOk result (λ end. IfSome end
        (IsEnd service.now.lock.basis pass.new.seen attempt.old.job)) }
    ensures learnt { OnOk result (HasLearntSince bench.old.session.solver
        bench.new.session.solver attempt.old attempt.new service.now.lock.basis.conflicts) }
    ensures listed { IfOk result
        (λ end. IfSome end (IsOfLearnt bench.new.session.solver attempt.new)) }
    ensures overtaken { IfOk result (λ end. end ≡ None
        → IsSome (settled service.now.lock.basis pass.new.seen attempt.old.job)) }
{
    'slices: loop {
        match slice(rt, alloc, service, pass, bench, attempt)? {
            Turn::Going => {}
            Turn::Answer(answer) => return Ok(Some(End::Answered(answer))),
            Turn::Spent(learnt) => return Ok(Some(End::Spent(learnt))),
            Turn::Overtaken => return Ok(None),
        }
    }
}

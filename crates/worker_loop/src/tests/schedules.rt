//! What a client does between the holds of a worker.

ghost use Rattle.std.specs.Prelude.{◌<◌, length, IfOk, Some};
ghost use Rattle.std.specs.Arc.{arc_value};
ghost use Rattle.entry_core.specs.Legal.{IsLegal};
ghost use Rattle.entry_core.specs.Right.{IsRightAnswer};
ghost use Rattle.service.specs.Passes.{IsClientPass, IsReady};
ghost use Rattle.worker_loop.specs.declared.ends.End.TheVariants.{Answered};
ghost use Rattle.worker_loop.specs.Attempts.{EndsBy, event_of};
ghost use Rattle.worker_loop.specs.Slices.{HasOpen, IsAtWork, IsUnderWay};
ghost use Rattle.worker_loop.specs.Work.{MayEnd};

use super::two_workers::{Parts, Worker, add, begin, bench_after, open};
use super::{PIGEONS, lits};
use crate::attempt::Attempt;
use crate::slices::{Turn, slice};
use board_core::{Board, Late};
use entry_core::{Answer, Entry, Event, Outcome};
use service::{ClientPass, Service, WorkerPass};
use std::alloc::{AllocError, Global};
use std::process::Abort;
use std::sync::{Arc, Wait};
use std::test::Fail;

// Clauses with a model, which a first slice finds.
const SATISFIABLE: &[&[i32]] = &[&[1, 2], &[-1]];

// A worker that knows an answer to its attempt, which isn't on the board yet.
#[derive(Drop)]
struct Found {
    pass: WorkerPass,
    attempt: Attempt,
    answer: Arc<Answer>,
}

// The worker makes a slice, in which it finds an answer.
fn find<R: Wait + Abort>(
    rt: &R,
    alloc: Global,
    service: &Service,
    worker: Worker,
) -> Result<Found, AllocError>
    requires work { IsAtWork service.now.lock worker.pass }
    requires under_way { IsUnderWay service.now.lock worker.pass worker.bench worker.attempt }
    requires left { length worker.attempt.learnt.items < service.now.lock.basis.conflicts }
    ensures work { IfOk result (λ found. IsAtWork service.now.lock found.pass) }
    ensures open { IfOk result (λ found.
        HasOpen service.now.lock found.pass found.attempt.number found.attempt.job) }
    ensures right { IfOk result (λ found. IsRightAnswer service.now.lock.basis.traces
        found.pass.seen found.attempt.job (arc_value found.answer)) }
{
    let Worker {
        mut pass,
        mut bench,
        mut attempt,
    } = worker;
    match slice(rt, alloc, service, &mut pass, &mut bench, &mut attempt)? {
        Turn::Answer(answer) => Ok(Found {
            pass,
            attempt,
            answer,
        }),
        Turn::Going | Turn::Spent(_) | Turn::Overtaken => panic!(rt; "no answer"),
    }
}

// Whether a slice of the worker's attempt finds its job settled.
fn is_overtaken<R: Wait>(
    rt: &R,
    alloc: Global,
    service: &Service,
    worker: Worker,
) -> Result<bool, AllocError>
    requires work { IsAtWork service.now.lock worker.pass }
    requires under_way { IsUnderWay service.now.lock worker.pass worker.bench worker.attempt }
    requires left { length worker.attempt.learnt.items < service.now.lock.basis.conflicts }
{
    let Worker {
        mut pass,
        mut bench,
        mut attempt,
    } = worker;
    let turn = slice(rt, alloc, service, &mut pass, &mut bench, &mut attempt)?;
    Ok(matches!(turn, Turn::Overtaken))
}

// One hold, in which the worker ends its attempt with its answer, and drops it where that comes
// too late.
fn decide<R: Wait + Abort>(rt: &R, service: &Service, found: Found) -> Result<(), Late>
    requires work { IsAtWork service.now.lock found.pass }
    requires open { HasOpen service.now.lock found.pass found.attempt.number found.attempt.job }
    requires right { IsRightAnswer service.now.lock.basis.traces
        found.pass.seen found.attempt.job (arc_value found.answer) }
{
    let Found {
        mut pass,
        attempt,
        answer,
    } = found;
    let mut held = service.hold(rt, &mut pass);
    let decided = decide_open(held.value(), pass.number(), attempt.number, answer);
    service.leave(&mut pass, held);
    decided
}

// What is done in that hold.
fn decide_open(board: &mut Board, caller: u32, number: u32, answer: Arc<Answer>) -> Result<(), Late>
    requires { IsLegal board.old.rules board.old.journal
        → MayEnd board.old caller number (Some (Answered answer)) }
    ensures { EndsBy board.old board.new caller number
        (event_of number (Some (Answered answer))) }
{
    // Every board tells that its journal is legal.
    let _ = board.journal();
    match board.decide(caller, number, answer) {
        Ok(()) => Ok(()),
        Err(late) => {
            board.drop_attempt(caller, number);
            Err(late)
        }
    }
}

// The client cancels job 1, which isn't settled.
fn cancel<R: Wait + Abort>(rt: &R, service: &Service, pass: &mut ClientPass)
    requires ready { IsReady service.now.lock pass.old }
    requires client { IsClientPass service.now.lock pass.old }
    ensures ready { IsReady service.now.lock pass.new }
    ensures client { IsClientPass service.now.lock pass.new }
{
    assert!(rt; service.cancel(rt, pass, 1).is_ok());
}

// The answer is right, and still the job stays cancelled by its client.
#[test]
fn an_answer_behind_a_cancel_comes_too_late(rt: HostRuntime) -> Result<(), Fail> {
    let alloc = rt.alloc();
    let Parts {
        service,
        mut client,
        first,
        second: _,
    } = open(&rt, alloc)?;
    add(&rt, alloc, &service, &mut client, SATISFIABLE)?;
    let worker = begin(&rt, alloc, &service, first, 1)?;
    let found = find(&rt, alloc, &service, worker)?;
    cancel(&rt, &service, &mut client);
    let late = Late(Outcome::Cancelled(0));
    assert_eq!(rt; decide(&rt, &service, found), Err(late));
    assert_eq!(rt; service.try_result(&mut client, 1), Ok(late.0));
    Ok(())
}

#[test]
fn a_slice_behind_a_cancel_is_overtaken(rt: HostRuntime) -> Result<(), Fail> {
    let alloc = rt.alloc();
    let Parts {
        service,
        mut client,
        first,
        second: _,
    } = open(&rt, alloc)?;
    add(&rt, alloc, &service, &mut client, SATISFIABLE)?;
    let worker = begin(&rt, alloc, &service, first, 1)?;
    cancel(&rt, &service, &mut client);
    assert!(rt; is_overtaken(&rt, alloc, &service, worker)?);
    Ok(())
}

// The second job has the empty clause, which would refute every job behind it.
#[test]
fn a_clause_that_is_shared_behind_an_add_has_the_tag_of_its_job(
    rt: HostRuntime,
) -> Result<(), Fail> {
    let alloc = rt.alloc();
    let Parts {
        service,
        mut client,
        first,
        second: _,
    } = open(&rt, alloc)?;
    add(&rt, alloc, &service, &mut client, PIGEONS)?;
    let worker = begin(&rt, alloc, &service, first, 1)?;
    add(&rt, alloc, &service, &mut client, &[&[]])?;
    let bench = bench_after(&rt, alloc, &service, worker)?;
    assert_eq!(rt; bench.packets.len(), 1);
    let packet = bench.packets.last().expect(&rt, "a packet");
    let step = packet.steps.items().last().expect(&rt, "a step");
    assert_eq!(rt; step.clause.lits(), lits(alloc, &rt, &[-5])?.as_slice());
    assert_eq!(rt; step.tag, 1);
    Ok(())
}

//! Clients and a worker in threads of their own, and single calls.

ghost use Rattle.std.specs.Prelude.{◌≡◌, true, false, IfOk};
ghost use Rattle.std.specs.Arc.{arc_value};
ghost use Rattle.entry_core.specs.Journal.{cube_of};
ghost use Rattle.board_core.specs.Replies.{IsJob, IsOwn, job_at};
ghost use Rattle.entry_core.specs.Legal.{AreWithinLimits, IsWorker};
ghost use Rattle.turn_lock.specs.Entries.{AddsOwn};
ghost use Rattle.service.specs.Worked.{both_literals, contradiction};
ghost use Rattle.service.specs.Passes.{caller_of, IsReady, IsClientPass, IsWorkerPass, Keeps};

use crate::{ClientPass, Service, TryFault, WorkerPass};
use board_core::{AddFault, Board, CancelFault, Task};
use entry_core::{Answer, Clauses, Outcome, Rules};
use sat_base::{Clause, Cube, Lit};
use std::alloc::{AllocError, Global};
use std::process::Abort;
use std::sync::atomic::AtomicBool;
use std::sync::atomic::Ordering::SeqCst;
use std::sync::{Arc, Wait};
use std::test::Fail;
use std::thread::{Threads, join_mut};
use trace_core::{Hints, Step, Steps};

// A service with its passes.
#[derive(Drop)]
struct Parts {
    service: Service,
    first: ClientPass,
    second: ClientPass,
    worker: WorkerPass,
}

// Two clients and a worker, whose jobs have one attempt.
fn rules() -> Rules
    ensures { AreWithinLimits result }
{
    Rules {
        clients: 2,
        workers: 1,
        attempts: 1,
        conflicts: 1,
        first: false,
        traces: true,
    }
}

fn open(rt: &impl Abort, alloc: Global) -> Result<Parts, AllocError>
    ensures first { IfOk result (λ parts. IsReady parts.service.lock parts.first
        × IsClientPass parts.service.lock parts.first) }
    ensures second { IfOk result (λ parts. IsReady parts.service.lock parts.second
        × IsClientPass parts.service.lock parts.second) }
    ensures worker { IfOk result (λ parts. IsReady parts.service.lock parts.worker
        × IsWorkerPass parts.service.lock parts.worker) }
{
    let (service, mut clients, mut workers) = Service::make(alloc, rules())?;
    let second = clients.pop().expect(rt, "two clients");
    let first = clients.pop().expect(rt, "two clients");
    let worker = workers.pop().expect(rt, "a worker");
    Ok(Parts {
        service,
        first,
        second,
        worker,
    })
}

// What a client read: the number of its job, the outcome, and why it can't cancel job 0.
#[derive(Clone, Copy, Debug, PartialEq, Eq)]
struct Read {
    job: u32,
    outcome: Outcome,
    refusal: Option<CancelFault>,
}

// Adds one job and waits for it.
fn ask<R: Wait>(rt: &R, alloc: Global, service: &Service, pass: &mut ClientPass) -> Option<Read>
    requires ready { IsReady service.now.lock pass.old }
    requires client { IsClientPass service.now.lock pass.old }
    ensures keeps { Keeps service.now.lock pass.old pass.new }
{
    let clauses = Clauses::of(Vec::new(alloc));
    let Ok(lits) = both_literals(alloc) else {
        return None;
    };
    let cube = Cube::of_ascending(lits);
    let Ok(job) = service.add(rt, pass, clauses, cube) else {
        return None;
    };
    let Ok(outcome) = service.wait_result(rt, pass, job) else {
        return None;
    };
    let refusal = service.cancel(rt, pass, 0).err();
    Some(Read {
        job,
        outcome,
        refusal,
    })
}

// Both literals of variable 1.
fn both_literals(alloc: Global) -> Result<Vec<Lit>, AllocError>
    ensures { IfOk result (λ lits. lits.items ≡ both_literals) }
{
    let Some(lit) = Lit::of(1) else {
        return Err(AllocError);
    };
    let mut lits = Vec::with_capacity(alloc, 2)?;
    lits.push_reserved(lit);
    lits.push_reserved(lit.negated());
    Ok(lits)
}

// The answer to a job whose cube has both literals of variable 1.
fn contradiction(alloc: Global) -> Result<Arc<Answer>, AllocError>
    ensures { IfOk result (λ answer. arc_value answer ≡ contradiction) }
{
    let part = Cube::of_ascending(both_literals(alloc)?);
    let step = Step {
        clause: Clause::of_ascending(both_literals(alloc)?),
        hints: Hints::of(Vec::new(alloc)),
        tag: 0,
    };
    let mut steps = Vec::with_capacity(alloc, 1)?;
    steps.push_reserved(step);
    Ok(Arc::new(alloc, Answer::Refuted(part, Steps::of(steps)))?)
}

// Whether the cube of a job is that of both literals of variable 1.
fn is_contradictory(board: &Board, job: u32) -> bool
    requires { IsJob board.now job }
    ensures { result ≡ true → cube_of board.now.journal job ≡ both_literals }
{
    match board.segment(job) {
        Ok(segment) => has_both(segment.cube.lits()),
        Err(_) => false,
    }
}

fn has_both(lits: &[Lit]) -> bool
    ensures { result ≡ true → lits.now ≡ both_literals }
{
    match lits {
        [first, second] => first.code() == 2 && second.code() == 3,
        _ => false,
    }
}

// Ends an attempt by the answer, where that is right for its job.
fn end(board: &mut Board, caller: u32, job: u32, attempt: u32, answer: &Arc<Answer>) -> bool
    requires own { IsOwn board.old caller attempt }
    requires at { job_at board.old attempt ≡ job }
    requires there { IsJob board.old job }
    requires answer { arc_value answer.now ≡ contradiction }
    ensures rules { board.new.rules ≡ board.old.rules }
    ensures added { AddsOwn caller_of caller board.old.journal board.new.journal }
{
    let Ok(copy) = answer.clone() else {
        return board.starve(caller, attempt).is_ok();
    };
    if !board.rules().traces {
        return board.starve(caller, attempt).is_ok();
    }
    if !is_contradictory(board, job) {
        return board.starve(caller, attempt).is_ok();
    }
    board.decide(caller, attempt, copy).is_ok()
}

// Takes a job and ends its attempt, and says whether that settled a job.
fn settle_one(board: &mut Board, caller: u32, answer: &Arc<Answer>) -> bool
    requires worker { IsWorker board.old.rules caller }
    requires answer { arc_value answer.now ≡ contradiction }
    ensures rules { board.new.rules ≡ board.old.rules }
    ensures added { AddsOwn caller_of caller board.old.journal board.new.journal }
{
    match board.take(caller) {
        Ok(Task::Job { job, attempt }) => end(board, caller, job, attempt, answer),
        _ => false,
    }
}

// Settles jobs until the clients are done.
#[tactic(auto, using(crate::proofs::Keeping::keeps_none, crate::proofs::Keeping::keeps_then))]
fn work<R: Wait>(
    rt: &R,
    service: &Service,
    pass: &mut WorkerPass,
    answer: &Arc<Answer>,
    are_done: &AtomicBool,
)
    requires answer { arc_value answer.now ≡ contradiction }
    requires ready { IsReady service.now.lock pass.old }
    requires worker { IsWorkerPass service.now.lock pass.old }
    ensures keeps { Keeps service.now.lock pass.old pass.new }
{
    for _ in rt.forever() {
        let bell = service.bell();
        if are_done.load(SeqCst) {
            return;
        }
        if !work_once(rt, service, pass, answer) {
            service.sleep(rt, bell);
        }
    }
    unreachable!()
}

fn work_once<R: Wait>(
    rt: &R,
    service: &Service,
    pass: &mut WorkerPass,
    answer: &Arc<Answer>,
) -> bool
    requires answer { arc_value answer.now ≡ contradiction }
    requires ready { IsReady service.now.lock pass.old }
    requires worker { IsWorkerPass service.now.lock pass.old }
    ensures keeps { Keeps service.now.lock pass.old pass.new }
{
    let mut held = service.hold(rt, pass);
    let settled = settle_one(held.value(), pass.number(), answer);
    service.leave(pass, held);
    settled
}

// Both clients ask while the worker works.
fn run<R: Threads + Wait + Sync>(
    rt: &R,
    alloc: Global,
    service: &Service,
    first: &mut ClientPass,
    second: &mut ClientPass,
    worker: &mut WorkerPass,
    answer: &Arc<Answer>,
) -> (Option<Read>, Option<Read>)
    requires answer { arc_value answer.now ≡ contradiction }
    requires first { IsReady service.now.lock first.old × IsClientPass service.now.lock first.old }
    requires second { IsReady service.now.lock second.old
        × IsClientPass service.now.lock second.old }
    requires worker { IsReady service.now.lock worker.old
        × IsWorkerPass service.now.lock worker.old }
    ensures first { Keeps service.now.lock first.old first.new }
    ensures second { Keeps service.now.lock second.old second.new }
    ensures worker { Keeps service.now.lock worker.old worker.new }
{
    let are_done = AtomicBool::new(false);
    let (_, read) = join_mut(
        rt,
        &mut ||
            requires { (arc_value answer.now ≡ contradiction)
                × (IsReady service.now.lock worker.now
                × IsWorkerPass service.now.lock worker.now) }
            ensures { Keeps service.entry.now.lock worker.entry.now worker.exit.now }
        { work(rt, service, worker, answer, &are_done) },
        &mut || -> (Option<Read>, Option<Read>)
            requires { (IsReady service.now.lock first.now
                × IsClientPass service.now.lock first.now)
                × (IsReady service.now.lock second.now
                × IsClientPass service.now.lock second.now) }
            ensures { Keeps service.entry.now.lock first.entry.now first.exit.now
                × Keeps service.entry.now.lock second.entry.now second.exit.now }
        {
            let read = ask_both(rt, alloc, service, first, second);
            are_done.store(true, SeqCst);
            service.ring();
            read
        },
    );
    read
}

fn ask_both<R: Threads + Wait + Sync>(
    rt: &R,
    alloc: Global,
    service: &Service,
    first: &mut ClientPass,
    second: &mut ClientPass,
) -> (Option<Read>, Option<Read>)
    requires first { IsReady service.now.lock first.old × IsClientPass service.now.lock first.old }
    requires second { IsReady service.now.lock second.old
        × IsClientPass service.now.lock second.old }
    ensures first { Keeps service.now.lock first.old first.new }
    ensures second { Keeps service.now.lock second.old second.new }
{
    join_mut(
        rt,
        &mut || -> Option<Read>
            requires { IsReady service.now.lock first.now
                × IsClientPass service.now.lock first.now }
            ensures { Keeps service.entry.now.lock first.entry.now first.exit.now }
        { ask(rt, alloc, service, first) },
        &mut || -> Option<Read>
            requires { IsReady service.now.lock second.now
                × IsClientPass service.now.lock second.now }
            ensures { Keeps service.entry.now.lock second.entry.now second.exit.now }
        { ask(rt, alloc, service, second) },
    )
}

#[test]
fn what_clients_read_beside_each_other_stays_so(rt: HostRuntime) -> Result<(), Fail> {
    let alloc = rt.alloc();
    let Parts {
        service,
        mut first,
        mut second,
        mut worker,
    } = open(&rt, alloc)?;
    let answer = contradiction(alloc)?;
    let (Some(one), Some(other)) = run(
        &rt,
        alloc,
        &service,
        &mut first,
        &mut second,
        &mut worker,
        &answer,
    ) else {
        panic!(rt; "each adds a job and reads its outcome")
    };
    assert!(rt; one.job.min(other.job) == 1 && one.job.max(other.job) == 2);
    for read in [one, other] {
        assert!(rt; matches!(read.refusal, Some(CancelFault::NoSuchJob(1 | 2))));
    }
    let read = if one.job == 1 { one } else { other };
    assert_eq!(rt; read.outcome, Outcome::Refuted);
    assert_eq!(rt;
        outcome_of_first(&rt, &service, &mut second),
        Some(read.outcome)
    );
    assert_eq!(rt;
        service.cancel(&rt, &mut first, 1),
        Err(CancelFault::Settled(read.outcome))
    );
    // Each of the two jobs has three entries by then.
    let (closing, again, added) = closings(&rt, alloc, &service, &mut first, &mut second);
    assert_eq!(rt; closing, Ok(()));
    assert_eq!(rt; again, Err(7));
    assert_eq!(rt; added, Err(AddFault::Closed(7)));
    assert_eq!(rt;
        service.try_result(&mut first, 3),
        Err(TryFault::NoSuchJob(2))
    );
    assert_eq!(rt; service.settled(&mut first), 2);
    Ok(())
}

// The outcome of the verdict of job 1.
fn outcome_of_first<R: Wait>(rt: &R, service: &Service, pass: &mut ClientPass) -> Option<Outcome>
    requires ready { IsReady service.now.lock pass.old }
    requires client { IsClientPass service.now.lock pass.old }
    ensures keeps { Keeps service.now.lock pass.old pass.new }
{
    match service.result(rt, pass, 1) {
        Ok(verdict) => Some(verdict.outcome()),
        Err(_) => None,
    }
}

// What the two clients are told where the first closes the input, the second closes it again, and
// the second adds a job.
#[tactic(auto, using(crate::proofs::Keeping::keeps_then))]
fn closings<R: Wait>(
    rt: &R,
    alloc: Global,
    service: &Service,
    first: &mut ClientPass,
    second: &mut ClientPass,
) -> (Result<(), u64>, Result<(), u64>, Result<u32, AddFault>)
    requires first { IsReady service.now.lock first.old × IsClientPass service.now.lock first.old }
    requires second { IsReady service.now.lock second.old
        × IsClientPass service.now.lock second.old }
    ensures first { Keeps service.now.lock first.old first.new }
    ensures second { Keeps service.now.lock second.old second.new }
{
    let closing = service.close_input(rt, first);
    let again = service.close_input(rt, second);
    let clauses = Clauses::of(Vec::new(alloc));
    let cube = Cube::of_ascending(Vec::new(alloc));
    let added = service.add(rt, second, clauses, cube);
    (closing, again, added)
}

#[test]
fn a_try_is_refused_while_another_pass_has_the_turn(rt: HostRuntime) -> Result<(), Fail> {
    let Parts {
        service,
        mut first,
        second: _,
        mut worker,
    } = open(&rt, rt.alloc())?;
    let held = service.hold(&rt, &mut worker);
    let refusal = service.try_result(&mut first, 1);
    let settled = service.settled(&mut first);
    service.leave(&mut worker, held);
    assert_eq!(rt; refusal, Err(TryFault::Busy(3)));
    assert_eq!(rt; settled, 0);
    assert_eq!(rt; service.rules().clients, 2);
    Ok(())
}

#[test]
fn a_service_that_is_shut_gives_its_board(rt: HostRuntime) -> Result<(), Fail> {
    let (service, clients, workers) = Service::make(rt.alloc(), rules())?;
    let board = service.shut(clients, workers);
    assert_eq!(rt; board.journal().len(), 0);
    Ok(())
}

//! Two workers on a service, whose slices are made one after the other.

ghost use Rattle.std.specs.Prelude.{◌≡◌, ◌<◌, length, IfOk};
ghost use Rattle.entry_core.specs.Legal.{AreWithinLimits};
ghost use Rattle.service.specs.Passes.{IsClientPass, IsReady};
ghost use Rattle.worker_loop.specs.Slices.{IsAtWork, IsUnderWay};
ghost use Rattle.worker_loop.specs.Work.{Rests};

use super::{PIGEONS, lits};
use crate::attempt::Attempt;
use crate::bench::Bench;
use crate::holds::take_once;
use crate::serving::start_attempt;
use crate::slices::slice;
use board_core::Task;
use entry_core::{Clauses, Rules};
use sat_base::{Clause, Cube};
use service::{ClientPass, Service, WorkerPass};
use std::alloc::{AllocError, Global};
use std::process::Abort;
use std::sync::Wait;
use std::test::Fail;

// A service of one client and two workers, with their passes.
#[derive(Drop)]
pub(super) struct Parts {
    pub(super) service: Service,
    pub(super) client: ClientPass,
    pub(super) first: WorkerPass,
    pub(super) second: WorkerPass,
}

// A worker with its attempt.
#[derive(Drop)]
pub(super) struct Worker {
    pub(super) pass: WorkerPass,
    pub(super) bench: Bench,
    pub(super) attempt: Attempt,
}

// Jobs of two attempts, each of which may learn one clause.
fn rules() -> Rules
    ensures { AreWithinLimits result }
{
    Rules {
        clients: 1,
        workers: 2,
        attempts: 2,
        conflicts: 1,
        first: false,
        traces: true,
    }
}

pub(super) fn open(rt: &impl Abort, alloc: Global) -> Result<Parts, AllocError>
    ensures client { IfOk result (λ parts. IsReady parts.service.lock parts.client
        × IsClientPass parts.service.lock parts.client) }
    ensures first { IfOk result (λ parts. IsAtWork parts.service.lock parts.first
        × Rests parts.service.lock parts.first) }
    ensures second { IfOk result (λ parts. IsAtWork parts.service.lock parts.second
        × Rests parts.service.lock parts.second) }
{
    let (service, mut clients, mut workers) = Service::make(alloc, rules())?;
    let client = clients.pop().expect(rt, "a client");
    let second = workers.pop().expect(rt, "a worker");
    let first = workers.pop().expect(rt, "another worker");
    Ok(Parts {
        service,
        client,
        first,
        second,
    })
}

// Adds a job with these clauses and an empty cube.
pub(super) fn add<R: Wait + Abort>(
    rt: &R,
    alloc: Global,
    service: &Service,
    pass: &mut ClientPass,
    rows: &[&[i32]],
) -> Result<(), AllocError>
    requires ready { IsReady service.now.lock pass.old }
    requires client { IsClientPass service.now.lock pass.old }
    ensures ready { IsReady service.now.lock pass.new }
    ensures client { IsClientPass service.now.lock pass.new }
{
    let mut clauses = Vec::new(alloc);
    for numbers in rows {
        clauses.push(Clause::from_lits(alloc, &lits(alloc, rt, numbers)?)?)?;
    }
    let cube = Cube::of_ascending(Vec::new(alloc));
    assert!(rt; service.add(rt, pass, Clauses::of(clauses), cube).is_ok());
    Ok(())
}

// The worker begins an attempt, which is at this job.
pub(super) fn begin<R: Wait + Abort>(
    rt: &R,
    alloc: Global,
    service: &Service,
    pass: WorkerPass,
    wanted: u32,
) -> Result<Worker, AllocError>
    requires work { IsAtWork service.now.lock pass }
    requires rests { Rests service.now.lock pass }
    ensures work { IfOk result (λ worker. IsAtWork service.now.lock worker.pass) }
    ensures under_way { IfOk result
        (λ worker. IsUnderWay service.now.lock worker.pass worker.bench worker.attempt) }
    ensures left { IfOk result (λ worker.
        length worker.attempt.learnt.items < service.now.lock.basis.conflicts) }
{
    let mut pass = pass;
    let mut bench = Bench::new(alloc, 0);
    match take_once(rt, service, &mut pass)? {
        Task::Job { job, attempt } => {
            assert_eq!(rt; job, wanted);
            let attempt = start_attempt(
                rt, alloc, service, &mut pass, &mut bench, 0, job, attempt,
            )?;
            Ok(Worker {
                pass,
                bench,
                attempt,
            })
        }
        Task::Done | Task::Idle => panic!(rt; "no job"),
    }
}

// A slice of the worker's attempt, and its bench afterwards.
pub(super) fn bench_after<R: Wait>(
    rt: &R,
    alloc: Global,
    service: &Service,
    worker: Worker,
) -> Result<Bench, AllocError>
    requires work { IsAtWork service.now.lock worker.pass }
    requires under_way { IsUnderWay service.now.lock worker.pass worker.bench worker.attempt }
    requires left { length worker.attempt.learnt.items < service.now.lock.basis.conflicts }
{
    let Worker {
        mut pass,
        mut bench,
        mut attempt,
    } = worker;
    slice(rt, alloc, service, &mut pass, &mut bench, &mut attempt)?;
    Ok(bench)
}

// Both workers begin attempts at these jobs, and then the second makes a slice, in which it shares
// one clause. Whether the first has taken it in after its next slice.
fn is_taken_in<R: Wait + Abort>(
    rt: &R,
    alloc: Global,
    service: &Service,
    first: WorkerPass,
    second: WorkerPass,
    jobs: (u32, u32),
) -> Result<bool, AllocError>
    requires first { IsAtWork service.now.lock first × Rests service.now.lock first }
    requires second { IsAtWork service.now.lock second × Rests service.now.lock second }
{
    let reader = begin(rt, alloc, service, first, jobs.0)?;
    let sharer = begin(rt, alloc, service, second, jobs.1)?;
    let shared = bench_after(rt, alloc, service, sharer)?;
    assert_eq!(rt; shared.packets.len(), 1);
    let read = bench_after(rt, alloc, service, reader)?;
    assert!(rt; !read.packets.is_empty());
    Ok(read.session.knows(1))
}

#[test]
fn what_one_worker_shares_the_other_holds_after_its_next_slice(
    rt: HostRuntime,
) -> Result<(), Fail> {
    let alloc = rt.alloc();
    let Parts {
        service,
        mut client,
        first,
        second,
    } = open(&rt, alloc)?;
    add(&rt, alloc, &service, &mut client, PIGEONS)?;
    assert!(rt; is_taken_in(&rt, alloc, &service, first, second, (1, 1))?);
    Ok(())
}

// The clause has the number of the second job for a tag.
#[test]
fn a_clause_of_a_later_job_waits(rt: HostRuntime) -> Result<(), Fail> {
    let alloc = rt.alloc();
    let Parts {
        service,
        mut client,
        first,
        second,
    } = open(&rt, alloc)?;
    add(&rt, alloc, &service, &mut client, &[&[7, 8]])?;
    add(&rt, alloc, &service, &mut client, PIGEONS)?;
    assert!(rt; !is_taken_in(&rt, alloc, &service, first, second, (1, 2))?);
    Ok(())
}

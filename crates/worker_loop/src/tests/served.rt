//! One worker on a service.

ghost use Rattle.std.specs.Prelude.{◌≡◌, false, IfOk};
ghost use Rattle.entry_core.specs.Legal.{AreWithinLimits};
ghost use Rattle.service.specs.Passes.{IsClientPass, IsReady, Keeps};
ghost use Rattle.worker_loop.specs.Slices.{IsAtWork};
ghost use Rattle.worker_loop.specs.Work.{Rests};

use super::{PIGEONS, lits};
use crate::work;
use board_core::Board;
use entry_core::{Clauses, Outcome, Rules};
use run_io::NoGate;
use sat_base::{Clause, Cube};
use service::{ClientPass, Service, WorkerPass};
use std::alloc::{AllocError, Global};
use std::process::Abort;
use std::sync::Wait;
use std::test::Fail;
use std::thread::Threads;

// A service of one client and one worker, with their passes.
#[derive(Drop)]
struct Parts {
    service: Service,
    client: ClientPass,
    worker: WorkerPass,
}

// Jobs of one attempt, which may learn so many clauses.
fn rules(rt: &impl Abort, conflicts: u64) -> Rules
    ensures limits { AreWithinLimits result }
    ensures all_answered { result.first ≡ false }
{
    assert!(rt; conflicts >= 1);
    Rules {
        clients: 1,
        workers: 1,
        attempts: 1,
        conflicts,
        first: false,
        traces: true,
    }
}

fn open(rt: &impl Abort, alloc: Global, conflicts: u64) -> Result<Parts, AllocError>
    ensures client { IfOk result (λ parts. IsReady parts.service.lock parts.client
        × IsClientPass parts.service.lock parts.client) }
    ensures worker { IfOk result (λ parts. IsAtWork parts.service.lock parts.worker
        × Rests parts.service.lock parts.worker) }
{
    let (service, mut clients, mut workers) = Service::make(alloc, rules(rt, conflicts))?;
    let client = clients.pop().expect(rt, "a client");
    let worker = workers.pop().expect(rt, "a worker");
    Ok(Parts {
        service,
        client,
        worker,
    })
}

// Adds one job, and says that no more come.
fn add_one<R: Wait + Abort>(
    rt: &R,
    alloc: Global,
    service: &Service,
    pass: &mut ClientPass,
    rows: &[&[i32]],
) -> Result<(), AllocError>
    requires ready { IsReady service.now.lock pass.old }
    requires client { IsClientPass service.now.lock pass.old }
    ensures keeps { Keeps service.now.lock pass.old pass.new }
{
    let mut clauses = Vec::new(alloc);
    for numbers in rows {
        clauses.push(Clause::from_lits(alloc, &lits(alloc, rt, numbers)?)?)?;
    }
    let cube = Cube::of_ascending(Vec::new(alloc));
    assert!(rt; service.add(rt, pass, Clauses::of(clauses), cube) == Ok(1));
    assert!(rt; service.close_input(rt, pass).is_ok());
    Ok(())
}

// The packets on the board end in these clauses.
fn assert_shared(
    alloc: Global,
    rt: &impl Abort,
    board: &Board,
    rows: &[&[i32]],
) -> Result<(), AllocError> {
    let packets = board.fetch(0)?;
    assert_eq!(rt; packets.len(), rows.len());
    for (packet, numbers) in packets.iter().zip(rows) {
        let step = packet.steps.items().last().expect(rt, "a step");
        assert_eq!(rt; step.clause.lits(), lits(alloc, rt, numbers)?.as_slice());
    }
    Ok(())
}

// The worker settles the one job of a closed service so, and shares these clauses.
fn assert_worked<R: Threads + Wait + Sync + Abort>(
    rt: &R,
    alloc: Global,
    rows: &[&[i32]],
    conflicts: u64,
    outcome: Outcome,
    shared: &[&[i32]],
) -> Result<(), AllocError> {
    let Parts {
        service,
        mut client,
        mut worker,
    } = open(rt, alloc, conflicts)?;
    add_one(rt, alloc, &service, &mut client, rows)?;
    // After want of memory it is called again.
    if work(rt, alloc, &service, &mut worker, 0, &NoGate).is_err() {
        work(rt, alloc, &service, &mut worker, 0, &NoGate)?;
    }
    assert_eq!(rt; service.try_result(&mut client, 1), Ok(outcome));
    assert_on_board(rt, alloc, &service, &mut worker, shared)
}

// The packets that a worker sees end in these clauses.
fn assert_on_board<R: Wait + Abort>(
    rt: &R,
    alloc: Global,
    service: &Service,
    pass: &mut WorkerPass,
    rows: &[&[i32]],
) -> Result<(), AllocError>
    requires { IsAtWork service.now.lock pass.old }
{
    let mut held = service.hold(rt, pass);
    let checked = assert_shared(alloc, rt, held.value(), rows);
    service.leave(pass, held);
    checked
}

// Clauses, the budget of the one attempt, its outcome, and what is shared meanwhile. With a budget
// of one clause the pigeons aren't refuted yet.
const JOBS: &[(&[&[i32]], u64, Outcome, &[&[i32]])] = &[
    (&[&[1, 2], &[-1]], 1, Outcome::Model, &[]),
    (PIGEONS, 1, Outcome::Spent, &[&[-5]]),
    (PIGEONS, 2, Outcome::Refuted, &[&[-5]]),
];

#[test]
fn a_closed_service_is_worked_off(rt: HostRuntime) -> Result<(), Fail> {
    let alloc = rt.alloc();
    for (rows, conflicts, outcome, shared) in JOBS {
        assert_worked(&rt, alloc, rows, *conflicts, *outcome, shared)?;
    }
    Ok(())
}

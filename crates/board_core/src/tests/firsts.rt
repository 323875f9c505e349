//! Models under the rule `first`, which cancel every later job, and without it.

ghost use Rattle.std.specs.Prelude.{◌≡◌, [], IfOk};
ghost use Rattle.std.specs.Arc.{arc_value};
ghost use Rattle.entry_core.specs.declared.answers.Answer.TheVariants as answer;
ghost use Rattle.board_core.specs.Worked.{AreEmpty, empty_job};

use crate::{Board, LookFault, Task};
use entry_core::{Answer, Clauses, Outcome, Rules, Segment};
use sat_base::{Assign, Cube};
use std::alloc::{AllocError, Global};
use std::process::Abort;
use std::sync::Arc;
use std::test::Fail;

// A board of one client and one worker without jobs, under the rule or without it.
fn fresh(alloc: Global, first: bool) -> Result<Board, AllocError>
    ensures { IfOk result (λ board. AreEmpty board.journal) }
{
    let rules = Rules {
        clients: 1,
        workers: 1,
        attempts: 2,
        conflicts: 1,
        first,
        traces: true,
    };
    let board = Board::new(alloc, rules)?;
    Ok(board)
}

// No clauses, and the empty cube.
fn segment(alloc: Global) -> Result<Arc<Segment>, AllocError>
    ensures { IfOk result (λ segment. arc_value segment ≡ empty_job) }
{
    let segment = Segment {
        clauses: Clauses::of(Vec::new(alloc)),
        cube: Cube::of_ascending(Vec::new(alloc)),
    };
    Ok(Arc::new(alloc, segment)?)
}

// Adds a job without clauses, whose cube is empty.
fn add(alloc: Global, rt: &impl Abort, board: &mut Board) -> Result<u32, AllocError>
    requires { AreEmpty board.old.journal }
    ensures { AreEmpty board.new.journal }
{
    let segment = segment(alloc)?;
    assert!(rt; board.rules().clients == 1);
    match board.add(1, segment) {
        Ok(job) => Ok(job),
        Err(_) => panic!(rt; "not added"),
    }
}

// What the worker is told.
fn take(rt: &impl Abort, board: &mut Board) -> Result<Task, AllocError>
    requires { AreEmpty board.old.journal }
    ensures { AreEmpty board.new.journal }
{
    assert!(rt; board.rules().clients == 1 && board.rules().workers == 1);
    board.take(2)
}

// The empty model.
fn model(alloc: Global) -> Result<Arc<Answer>, AllocError>
    ensures { IfOk result (λ given. arc_value given ≡ answer.Model []) }
{
    let model = Answer::Model(Assign::of(Vec::new(alloc)));
    Ok(Arc::new(alloc, model)?)
}

// Answers the job to take by its model, which is empty, and tells which job that is.
fn answer(alloc: Global, rt: &impl Abort, board: &mut Board) -> Result<u32, AllocError>
    requires { AreEmpty board.old.journal }
    ensures { AreEmpty board.new.journal }
{
    let model = model(alloc)?;
    assert!(rt; board.rules().clients == 1 && board.rules().workers == 1);
    match board.take(2)? {
        Task::Job { job, attempt } => match board.decide(2, attempt, model) {
            Ok(()) => Ok(job),
            Err(_) => panic!(rt; "late"),
        },
        _ => panic!(rt; "no job"),
    }
}

// A call, with the number of the job that it adds or answers, or with what the worker is told.
#[derive(Clone, Copy)]
enum Call {
    Add(u32),
    Answer(u32),
    Take(Task),
}

// A call, and how the jobs stand after it.
#[derive(Clone, Copy)]
struct Row<'a> {
    call: Call,
    outcomes: &'a [Result<Outcome, LookFault>],
}

const NOT_YET: Result<Outcome, LookFault> = Err(LookFault::NotYet);

const MODEL: Result<Outcome, LookFault> = Ok(Outcome::Model);

const BY_TWO: Result<Outcome, LookFault> = Ok(Outcome::Cancelled(2));

fn make(alloc: Global, rt: &impl Abort, board: &mut Board, call: Call) -> Result<(), AllocError>
    requires { AreEmpty board.old.journal }
    ensures { AreEmpty board.new.journal }
{
    match call {
        Call::Add(job) => assert_eq!(rt; add(alloc, rt, board)?, job),
        Call::Answer(job) => assert_eq!(rt; answer(alloc, rt, board)?, job),
        Call::Take(task) => assert_eq!(rt; take(rt, board)?, task),
    }
    Ok(())
}

fn assert_outcomes(rt: &impl Abort, board: &Board, outcomes: &[Result<Outcome, LookFault>]) {
    let mut job: u32 = 0;
    let mut settled: u64 = 0;
    for outcome in outcomes {
        job = job.wrapping_add(1);
        assert_eq!(rt; board.outcome(job), *outcome);
        if outcome.is_ok() {
            settled = settled.wrapping_add(1);
        }
    }
    assert_eq!(rt; board.jobs(), job);
    assert_eq!(rt; board.settled(), settled);
}

// Makes the calls of the rows, one after the other, on a fresh board.
fn run(alloc: Global, rt: &impl Abort, first: bool, rows: &[Row]) -> Result<(), AllocError> {
    let mut board = fresh(alloc, first)?;
    for row in rows {
        make(alloc, rt, &mut board, row.call)?;
        assert_outcomes(rt, &board, row.outcomes);
    }
    Ok(())
}

// Job 1 is taken, and job 2 answered before it: the later jobs stand cancelled by job 2, also those
// that come afterwards, and job 1 may still be answered.
const UNDER_THE_RULE: &[Row<'static>] = &[
    Row {
        call: Call::Add(1),
        outcomes: &[NOT_YET],
    },
    Row {
        call: Call::Add(2),
        outcomes: &[NOT_YET, NOT_YET],
    },
    Row {
        call: Call::Add(3),
        outcomes: &[NOT_YET, NOT_YET, NOT_YET],
    },
    Row {
        call: Call::Add(4),
        outcomes: &[NOT_YET, NOT_YET, NOT_YET, NOT_YET],
    },
    Row {
        call: Call::Take(Task::Job { job: 1, attempt: 1 }),
        outcomes: &[NOT_YET, NOT_YET, NOT_YET, NOT_YET],
    },
    Row {
        call: Call::Answer(2),
        outcomes: &[NOT_YET, MODEL, BY_TWO, BY_TWO],
    },
    Row {
        call: Call::Add(5),
        outcomes: &[NOT_YET, MODEL, BY_TWO, BY_TWO, BY_TWO],
    },
    Row {
        call: Call::Answer(1),
        outcomes: &[MODEL, MODEL, BY_TWO, BY_TWO, BY_TWO],
    },
    Row {
        call: Call::Add(6),
        outcomes: &[MODEL, MODEL, BY_TWO, BY_TWO, BY_TWO, BY_TWO],
    },
    Row {
        call: Call::Take(Task::Idle),
        outcomes: &[MODEL, MODEL, BY_TWO, BY_TWO, BY_TWO, BY_TWO],
    },
];

#[test]
fn a_model_cancels_the_later_jobs_alone(rt: HostRuntime) -> Result<(), Fail> {
    Ok(run(rt.alloc(), &rt, true, UNDER_THE_RULE)?)
}

const WITHOUT_THE_RULE: &[Row<'static>] = &[
    Row {
        call: Call::Add(1),
        outcomes: &[NOT_YET],
    },
    Row {
        call: Call::Add(2),
        outcomes: &[NOT_YET, NOT_YET],
    },
    Row {
        call: Call::Answer(1),
        outcomes: &[MODEL, NOT_YET],
    },
    Row {
        call: Call::Add(3),
        outcomes: &[MODEL, NOT_YET, NOT_YET],
    },
    Row {
        call: Call::Take(Task::Job { job: 2, attempt: 2 }),
        outcomes: &[MODEL, NOT_YET, NOT_YET],
    },
];

#[test]
fn without_the_rule_a_model_cancels_nobody(rt: HostRuntime) -> Result<(), Fail> {
    Ok(run(rt.alloc(), &rt, false, WITHOUT_THE_RULE)?)
}

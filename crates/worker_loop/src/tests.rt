//! Small jobs, pursued with one bench or worked off on a board of one client and one worker.

ghost use Rattle.std.specs.Prelude.{OnOk, IfOk};
ghost use Rattle.worker_loop.specs.Fits.{Fits};
ghost use Rattle.worker_loop.specs.Working.{IsResting};

use crate::ending::pursue_job;
use crate::{Bench, End, work_alone};
use board_core::{Board, Task};
use entry_core::{Answer, Clauses, Entry, Event, Outcome, Rules, Segment, Verdict};
use sat_base::{Clause, Cube, Lit, Ref};
use std::alloc::{AllocError, Global};
use std::process::Abort;
use std::sync::Arc;
use std::test::Fail;
use trace_core::Step;

mod schedules;
mod served;
mod two_workers;

// Three pigeons in two holes: variable 2p - 1 says that pigeon p sits in the first hole, 2p in the
// second. The first learnt clause is -2, and then the clauses are refuted without a decision.
const PIGEONS: &[&[i32]] = &[
    &[1, 2],
    &[3, 4],
    &[5, 6],
    &[-1, -3],
    &[-1, -5],
    &[-3, -5],
    &[-2, -4],
    &[-2, -6],
    &[-4, -6],
];

// Every clause of three variables. Three clauses are learnt before they are refuted.
const ALL_SIGNS: &[&[i32]] = &[
    &[1, 2, 3],
    &[1, 2, -3],
    &[1, -2, 3],
    &[1, -2, -3],
    &[-1, 2, 3],
    &[-1, 2, -3],
    &[-1, -2, 3],
    &[-1, -2, -3],
];

fn lits(alloc: Global, rt: &impl Abort, numbers: &[i32]) -> Result<Vec<Lit>, AllocError> {
    let mut lits = Vec::new(alloc);
    for number in numbers {
        lits.push(Lit::of(*number).expect(rt, "a literal"))?;
    }
    Ok(lits)
}

// These clauses, and this cube.
fn segment(
    alloc: Global,
    rt: &impl Abort,
    rows: &[&[i32]],
    cube: &[i32],
) -> Result<Arc<Segment>, AllocError> {
    let mut clauses = Vec::new(alloc);
    for numbers in rows {
        clauses.push(Clause::from_lits(alloc, &lits(alloc, rt, numbers)?)?)?;
    }
    let segment = Segment {
        clauses: Clauses::of(clauses),
        cube: Cube::from_lits(alloc, &lits(alloc, rt, cube)?)?,
    };
    Ok(Arc::new(alloc, segment)?)
}

// A board without jobs, of one client and one worker.
fn board(
    alloc: Global,
    rt: &impl Abort,
    conflicts: u64,
    attempts: u32,
    traces: bool,
) -> Result<Board, AllocError>
    ensures { IfOk result (λ board. IsResting board 2) }
{
    assert!(rt; conflicts >= 1);
    assert!(rt; 1 <= attempts && attempts <= 64);
    let rules = Rules {
        clients: 1,
        workers: 1,
        attempts,
        conflicts,
        first: false,
        traces,
    };
    Board::new(alloc, rules)
}

// Adds the next job.
fn add(rt: &impl Abort, board: &mut Board, segment: Arc<Segment>)
    requires { IsResting board.old 2 }
    ensures { IsResting board.new 2 }
{
    assert!(rt; board.rules().clients == 1);
    match board.add(1, segment) {
        Ok(_) => {}
        Err(_) => panic!(rt; "not added"),
    }
}

// Says that no more jobs come.
fn close_input(rt: &impl Abort, board: &mut Board)
    requires { IsResting board.old 2 }
    ensures { IsResting board.new 2 }
{
    assert!(rt; board.rules().clients == 1);
    match board.close_input(1) {
        Ok(()) => {}
        Err(_) => panic!(rt; "closed before"),
    }
}

// A board of one job.
fn board_of_one(
    alloc: Global,
    rt: &impl Abort,
    rows: &[&[i32]],
    cube: &[i32],
    conflicts: u64,
    attempts: u32,
    traces: bool,
) -> Result<Board, AllocError>
    ensures { IfOk result (λ board. IsResting board 2) }
{
    let mut board = board(alloc, rt, conflicts, attempts, traces)?;
    add(rt, &mut board, segment(alloc, rt, rows, cube)?);
    Ok(board)
}

// A board of two jobs with empty cubes: the clause 1, and then -1 too.
fn board_of_two(alloc: Global, rt: &impl Abort) -> Result<Board, AllocError>
    ensures { IfOk result (λ board. IsResting board 2) }
{
    let mut board = board(alloc, rt, 1, 1, true)?;
    add(rt, &mut board, segment(alloc, rt, &[&[1]], &[])?);
    add(rt, &mut board, segment(alloc, rt, &[&[-1]], &[])?);
    Ok(board)
}

// All attempts of the worker.
fn work(
    alloc: Global,
    rt: &impl Abort,
    board: &mut Board,
    bench: &mut Bench,
) -> Result<(), AllocError>
    requires resting { IsResting board.old 2 }
    requires fits { Fits bench.old board.old.journal }
{
    assert!(rt; board.rules().clients == 1 && board.rules().workers == 1);
    work_alone(alloc, board, 2, bench)
}

// What comes of this job with this bench.
fn pursue(
    alloc: Global,
    rt: &impl Abort,
    board: &Board,
    bench: &mut Bench,
    job: u32,
) -> Result<End, AllocError>
    requires { Fits bench.old board.now.journal }
    ensures { OnOk result (Fits bench.new board.now.journal) }
{
    assert!(rt; 1 <= job && job <= board.jobs());
    pursue_job(alloc, board, bench, job, 1)
}

// The answer to these clauses and this cube, without a budget that could be spent.
fn answer(
    alloc: Global,
    rt: &impl Abort,
    rows: &[&[i32]],
    cube: &[i32],
    traces: bool,
) -> Result<Arc<Answer>, AllocError> {
    let board = board_of_one(alloc, rt, rows, cube, u64::MAX, 1, traces)?;
    let mut bench = Bench::new(alloc, 0);
    match pursue(alloc, rt, &board, &mut bench, 1)? {
        End::Answered(answer) => Ok(answer),
        End::Spent(_) => panic!(rt; "spent"),
    }
}

// Clauses, a cube, and the values of their model.
const MODELS: &[(&[&[i32]], &[i32], &[bool])] = &[
    (&[], &[], &[]),
    (&[], &[-2, 1], &[true, false]),
    (&[&[1, 2]], &[], &[true, false]),
    (&[&[1, 2]], &[4], &[true, false, false, true]),
];

#[test]
fn free_variables_have_a_value(rt: HostRuntime) -> Result<(), Fail> {
    let alloc = rt.alloc();
    for (rows, cube, values) in MODELS {
        match &*answer(alloc, &rt, rows, cube, true)? {
            Answer::Model(model) => assert_eq!(rt; model.values(), *values, "{cube:?}"),
            Answer::Refuted(_, _) => panic!(rt; "refuted: {cube:?}"),
        }
    }
    Ok(())
}

// A step: its clause and its hints.
type Row = (&'static [i32], &'static [Ref]);

// The steps are these clauses with these hints.
fn assert_steps(
    alloc: Global,
    rt: &impl Abort,
    steps: &[Step],
    rows: &[Row],
) -> Result<(), AllocError> {
    assert_eq!(rt; steps.len(), rows.len());
    for (step, (numbers, hints)) in steps.iter().zip(rows) {
        assert_eq!(rt; step.clause.lits(), lits(alloc, rt, numbers)?.as_slice());
        assert_eq!(rt; step.hints.items(), *hints);
    }
    Ok(())
}

// The answer refutes this part, and these are the steps that are kept with it.
fn assert_refuted(
    alloc: Global,
    rt: &impl Abort,
    answer: &Answer,
    part: &[i32],
    steps: &[Row],
) -> Result<(), AllocError> {
    match answer {
        Answer::Model(_) => panic!(rt; "a model: {part:?}"),
        Answer::Refuted(found, trace) => {
            assert_eq!(rt; found.lits(), lits(alloc, rt, part)?.as_slice());
            assert_steps(alloc, rt, trace.items(), steps)
        }
    }
}

// Clauses, a cube, its refuted part, and the steps of the trace: a unit clause against its
// negation, an empty clause, two literals of three, and one behind a chain.
const REFUTED: &[(&[&[i32]], &[i32], &[i32], &[Row])] = &[
    (&[&[1]], &[-1], &[-1], &[(&[1], &[Ref::Input(1)])]),
    (&[&[]], &[5], &[], &[(&[], &[Ref::Input(1)])]),
    (
        &[&[-1, -3]],
        &[1, 2, 3],
        &[1, 3],
        &[(&[-1, -3], &[Ref::Input(1)])],
    ),
    (
        &[&[1], &[-1, 2]],
        &[-2],
        &[-2],
        &[
            (&[2], &[Ref::Input(1), Ref::Input(2)]),
            (&[2], &[Ref::Own(1)]),
        ],
    ),
];

#[test]
fn refuted_parts_have_their_traces_where_these_are_kept(rt: HostRuntime) -> Result<(), Fail> {
    let alloc = rt.alloc();
    for (rows, cube, part, steps) in REFUTED {
        let kept = answer(alloc, &rt, rows, cube, true)?;
        assert_refuted(alloc, &rt, &kept, part, steps)?;
        let unkept = answer(alloc, &rt, rows, cube, false)?;
        assert_refuted(alloc, &rt, &unkept, part, &[])?;
    }
    Ok(())
}

// What was learnt in a job's only attempt is listed, and the session has it still.
#[test]
fn a_spent_budget_leaves_what_was_learnt(rt: HostRuntime) -> Result<(), Fail> {
    let alloc = rt.alloc();
    let mut board = board_of_one(alloc, &rt, PIGEONS, &[], 1, 1, true)?;
    let mut bench = Bench::new(alloc, 0);
    work(alloc, &rt, &mut board, &mut bench)?;
    assert!(rt; matches!(board.verdict(1), Ok(Verdict::Spent)));
    let Some(
        Entry {
            event: Event::Spent { attempt: 1, learnt },
            ..
        },
    ) = board.journal().last()
    else {
        panic!(rt; "not spent");
    };
    assert_eq!(rt; learnt.items().len(), 1);
    let clause = &learnt.items()[0];
    assert_eq!(rt; clause.lits(), lits(alloc, &rt, &[-5])?.as_slice());
    let [number] = bench.session.learnt() else {
        panic!(rt; "not one learnt clause");
    };
    let steps = bench.session.steps();
    assert!(rt; *number > 0);
    let index = *number as usize - 1;
    assert!(rt; index < steps.len());
    assert_eq!(rt; steps.step(index).lits(), clause.lits());
    Ok(())
}

// Jobs of so many attempts with such a budget, and how many entries tell of them.
#[test]
fn an_attempt_goes_on_from_what_the_one_before_learnt(rt: HostRuntime) -> Result<(), Fail> {
    let alloc = rt.alloc();
    for (rows, conflicts, attempts, outcome, entries, learnt) in [
        (PIGEONS, 1, 1, Outcome::Spent, 3, 1),
        (PIGEONS, 1, 2, Outcome::Refuted, 5, 1),
        (PIGEONS, 2, 1, Outcome::Refuted, 3, 1),
        (ALL_SIGNS, 1, 3, Outcome::Spent, 7, 3),
        (ALL_SIGNS, 1, 4, Outcome::Refuted, 9, 3),
        (ALL_SIGNS, 4, 1, Outcome::Refuted, 3, 3),
    ] {
        let mut board = board_of_one(alloc, &rt, rows, &[], conflicts, attempts, false)?;
        let mut bench = Bench::new(alloc, 0);
        work(alloc, &rt, &mut board, &mut bench)?;
        assert_eq!(rt; board.outcome(1), Ok(outcome), "{attempts} of {conflicts}");
        assert_eq!(rt; board.journal().len(), entries, "{attempts} of {conflicts}");
        assert_eq!(rt;
            bench.session.learnt().len(),
            learnt,
            "{attempts} of {conflicts}"
        );
    }
    Ok(())
}

// This job is answered so with this bench, whose session is at the job then.
fn assert_answer(
    alloc: Global,
    rt: &impl Abort,
    board: &Board,
    bench: &mut Bench,
    job: u32,
    outcome: Outcome,
) -> Result<(), AllocError>
    requires { Fits bench.old board.now.journal }
    ensures { OnOk result (Fits bench.new board.now.journal) }
{
    match pursue(alloc, rt, board, bench, job)? {
        End::Answered(answer) => assert_eq!(rt; answer.outcome(), outcome, "job {job}"),
        End::Spent(_) => panic!(rt; "spent: job {job}"),
    }
    assert_eq!(rt; bench.session.bound(), job);
    Ok(())
}

// The clauses of the second job would refute the first.
#[test]
fn a_session_that_is_past_the_job_begins_anew(rt: HostRuntime) -> Result<(), Fail> {
    let alloc = rt.alloc();
    let mut board = board_of_two(alloc, &rt)?;
    let mut bench = Bench::new(alloc, 0);
    assert_answer(alloc, &rt, &board, &mut bench, 2, Outcome::Refuted)?;
    assert_answer(alloc, &rt, &board, &mut bench, 1, Outcome::Model)?;
    assert_answer(alloc, &rt, &board, &mut bench, 2, Outcome::Refuted)?;
    work(alloc, &rt, &mut board, &mut bench)?;
    assert_eq!(rt; board.outcome(1), Ok(Outcome::Model));
    assert_eq!(rt; board.outcome(2), Ok(Outcome::Refuted));
    Ok(())
}

// The worker settles so many jobs, and then nothing is left to do.
fn assert_worked_off(
    alloc: Global,
    rt: &impl Abort,
    board: Board,
    jobs: u64,
) -> Result<(), AllocError>
    requires { IsResting board 2 }
{
    let mut board = board;
    close_input(rt, &mut board);
    let mut bench = Bench::new(alloc, 0);
    work(alloc, rt, &mut board, &mut bench)?;
    assert_eq!(rt; board.settled(), jobs);
    assert!(rt; board.rules().clients == 1 && board.rules().workers == 1);
    assert_eq!(rt; board.take(2)?, Task::Done);
    Ok(())
}

#[test]
fn a_closed_board_is_worked_off(rt: HostRuntime) -> Result<(), Fail> {
    let alloc = rt.alloc();
    assert_worked_off(alloc, &rt, board(alloc, &rt, 1, 1, false)?, 0)?;
    assert_worked_off(alloc, &rt, board_of_two(alloc, &rt)?, 2)?;
    Ok(())
}

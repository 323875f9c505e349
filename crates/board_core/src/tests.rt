//! The worked rows on a board, an answer, and as many jobs as there may be.

ghost use Rattle.std.specs.Prelude.{IfOk};
ghost use Rattle.board_core.specs.Replies.{IsTask, IsOwn};

use crate::{AddFault, AskFault, Board, CancelFault, LookFault, Task};
use entry_core::{Answer, Clauses, Outcome, Rules, Segment, Verdict};
use sat_base::{Assign, Clause, Cube, Lit};
use std::alloc::{AllocError, Global};
use std::process::Abort;
use std::sync::Arc;
use std::test::Fail;

mod firsts;
mod limits;
mod worked;

fn segment(alloc: Global, rt: &impl Abort, clauses: &[&[i32]]) -> Result<Arc<Segment>, Fail> {
    let mut items = Vec::new(alloc);
    for numbers in clauses {
        let mut lits = Vec::new(alloc);
        for number in *numbers {
            lits.push(Lit::of(*number).expect(rt, "a literal"))?;
        }
        items.push(Clause::from_lits(alloc, &lits)?)?;
    }
    let cube = Cube::from_lits(alloc, &[])?;
    Ok(Arc::new(
        alloc,
        Segment {
            clauses: Clauses::of(items),
            cube,
        },
    )?)
}

// A board of two clients and one worker.
fn board(alloc: Global) -> Result<Board, AllocError> {
    Board::new(
        alloc,
        Rules {
            clients: 2,
            workers: 1,
            attempts: 1,
            conflicts: 1,
            first: false,
            traces: true,
        },
    )
}

// A call by the first client.
fn add(rt: &impl Abort, board: &mut Board, segment: Arc<Segment>) -> Result<u32, AddFault> {
    assert!(rt; board.rules().clients == 2);
    board.add(1, segment)
}

fn cancel(rt: &impl Abort, board: &mut Board, job: u32) -> Result<(), CancelFault> {
    assert!(rt; board.rules().clients == 2);
    board.cancel(2, job)
}

fn close_input(rt: &impl Abort, board: &mut Board) -> Result<(), u64> {
    assert!(rt; board.rules().clients == 2);
    board.close_input(2)
}

// A call by the worker.
fn take(rt: &impl Abort, board: &mut Board) -> Result<Task, AllocError>
    ensures { IfOk result (IsTask board.old board.new 3) }
{
    assert!(rt; board.rules().clients == 2 && board.rules().workers == 1);
    board.take(3)
}

#[test]
fn a_new_job_is_taken_once_and_not_settled(rt: HostRuntime) -> Result<(), Fail> {
    let alloc = rt.alloc();
    let mut board = board(alloc)?;
    assert_eq!(rt; board.journal().len(), 0);
    assert_eq!(rt;
        add(&rt, &mut board, segment(alloc, &rt, &[&[1, 2], &[-1]])?),
        Ok(1)
    );
    assert_eq!(rt; take(&rt, &mut board)?, Task::Job { job: 1, attempt: 1 });
    assert_eq!(rt; take(&rt, &mut board)?, Task::Idle);
    assert_eq!(rt; board.outcome(1), Err(LookFault::NotYet));
    assert_eq!(rt; board.outcome(2), Err(LookFault::NoSuchJob(1)));
    assert!(rt; matches!(board.verdict(1), Err(AskFault::NotYet)));
    assert!(rt; matches!(board.verdict(2), Err(AskFault::NoSuchJob(1))));
    assert_eq!(rt; board.jobs(), 1);
    assert_eq!(rt; board.segment(1)?.clauses.items().len(), 2);
    Ok(())
}

#[test]
fn a_cancelled_job_keeps_its_verdict(rt: HostRuntime) -> Result<(), Fail> {
    let alloc = rt.alloc();
    let mut board = board(alloc)?;
    assert_eq!(rt; add(&rt, &mut board, segment(alloc, &rt, &[])?), Ok(1));
    assert_eq!(rt; cancel(&rt, &mut board, 0), Err(CancelFault::NoSuchJob(1)));
    assert_eq!(rt; board.settled(), 0);
    assert_eq!(rt; cancel(&rt, &mut board, 1), Ok(()));
    assert_eq!(rt; board.settled(), 1);
    assert_eq!(rt;
        cancel(&rt, &mut board, 1),
        Err(CancelFault::Settled(Outcome::Cancelled(0)))
    );
    assert_eq!(rt; board.outcome(1), Ok(Outcome::Cancelled(0)));
    assert!(rt; matches!(board.verdict(1), Ok(Verdict::Cancelled(0))));
    assert_eq!(rt; board.journal().len(), 2);
    Ok(())
}

#[test]
fn a_closed_board_takes_no_job(rt: HostRuntime) -> Result<(), Fail> {
    let alloc = rt.alloc();
    let mut board = board(alloc)?;
    assert_eq!(rt; close_input(&rt, &mut board), Ok(()));
    assert_eq!(rt; close_input(&rt, &mut board), Err(1));
    assert_eq!(rt;
        add(&rt, &mut board, segment(alloc, &rt, &[])?),
        Err(AddFault::Closed(1))
    );
    assert_eq!(rt; take(&rt, &mut board)?, Task::Done);
    assert_eq!(rt; board.packets(), 0);
    assert_eq!(rt; board.fetch(0)?.len(), 0);
    Ok(())
}

// The worker's next attempt.
fn begin(rt: &impl Abort, board: &mut Board) -> Result<u32, AllocError>
    ensures { IfOk result (IsOwn board.new 3) }
{
    match take(rt, board)? {
        Task::Job { attempt, .. } => Ok(attempt),
        _ => panic!(rt; "no job to take"),
    }
}

#[test]
fn as_many_jobs_as_there_may_be_are_taken_in_their_order(rt: HostRuntime) -> Result<(), Fail> {
    let alloc = rt.alloc();
    let mut board = board(alloc)?;
    let empty = segment(alloc, &rt, &[])?;
    for job in 1..=1_048_576 {
        assert_eq!(rt; add(&rt, &mut board, empty.clone()?), Ok(job));
    }
    assert_eq!(rt; add(&rt, &mut board, empty), Err(AddFault::TooManyJobs));
    for job in 1..=1_048_576 {
        let attempt = begin(&rt, &mut board)?;
        assert_eq!(rt; attempt, job);
        assert_eq!(rt; board.starve(3, attempt), Ok(()));
    }
    assert_eq!(rt; board.settled(), 1_048_576);
    assert_eq!(rt; board.outcome(1_048_576), Ok(Outcome::Starved));
    assert_eq!(rt; take(&rt, &mut board)?, Task::Idle);
    Ok(())
}

#[test]
fn an_answer_settles_its_job(rt: HostRuntime) -> Result<(), Fail> {
    let alloc = rt.alloc();
    let rules = Rules {
        clients: 1,
        workers: 2,
        attempts: 2,
        conflicts: 1,
        first: false,
        traces: true,
    };
    let mut board = Board::new(alloc, rules)?;
    let segment = Segment {
        clauses: Clauses::of(Vec::new(alloc)),
        cube: Cube::of_ascending(Vec::new(alloc)),
    };
    let segment = Arc::new(alloc, segment)?;
    let answer = Arc::new(alloc, Answer::Model(Assign::of(Vec::new(alloc))))?;
    let Ok(_) = board.add(1, segment) else {
        panic!(rt; "not added");
    };
    let Task::Job { attempt, .. } = board.take(2)? else {
        panic!(rt; "no job to take");
    };
    assert_eq!(rt; board.decide(2, attempt, answer), Ok(()));
    assert_eq!(rt; board.outcome(1), Ok(Outcome::Model));
    assert!(rt; matches!(board.verdict(1), Ok(Verdict::Answered(_))));
    Ok(())
}

//! A board with one worked job: what it tells of it, shared packets, a spent attempt, and attempts
//! that come late.

ghost use Rattle.std.specs.Prelude.{◌≡◌, true, false, [], ◌∷◌, IfOk};
ghost use Rattle.std.specs.Arc.{arc_value};
ghost use Rattle.sat_base.specs.Lit.{code_of};
ghost use Rattle.entry_core.specs.declared.answers.Answer.TheVariants as answer;
ghost use Rattle.entry_core.specs.Journal.{segments};
ghost use Rattle.entry_core.specs.Attempts.{attempts};
ghost use Rattle.board_core.specs.Replies.{IsOwn, job_at};
ghost use Rattle.board_core.specs.Worked.{worked_job, worked_step};

use crate::{AddFault, Board, Late, ShareFault, Task};
use entry_core::{Answer, Clauses, Entry, Event, Outcome, Rules, Segment, Verdict};
use sat_base::{Assign, Clause, Cube, Lit, Ref};
use std::alloc::{AllocError, Global};
use std::process::Abort;
use std::sync::Arc;
use std::test::Fail;
use trace_core::{Hints, Packet, Step, Steps};

fn lit(rt: &impl Abort, number: i32) -> Lit
    ensures { result ≡ code_of number }
{
    Lit::of(number).expect(rt, "a literal")
}

// Clauses 1 2 and -1, and the empty cube.
fn job(alloc: Global, rt: &impl Abort) -> Result<Arc<Segment>, AllocError>
    ensures { IfOk result (λ segment. arc_value segment ≡ worked_job) }
{
    let either = Clause::of_ascending(vec![in alloc; lit(rt, 1), lit(rt, 2)]?);
    let single = Clause::of_ascending(vec![in alloc; lit(rt, -1)]?);
    let segment = Segment {
        clauses: Clauses::of(vec![in alloc; either, single]?),
        cube: Cube::of_ascending(Vec::new(alloc)),
    };
    Ok(Arc::new(alloc, segment)?)
}

// The clause 2.
fn two(alloc: Global, rt: &impl Abort) -> Result<Clause, AllocError>
    ensures { IfOk result (λ clause. clause ≡ 4 ∷ []) }
{
    Ok(Clause::of_ascending(vec![in alloc; lit(rt, 2)]?))
}

// The clause 2 with the step that proves it.
fn packet(alloc: Global, rt: &impl Abort) -> Result<Arc<Packet>, AllocError>
    ensures { IfOk result (λ packet. arc_value packet ≡ worked_step ∷ []) }
{
    let step = Step {
        clause: two(alloc, rt)?,
        hints: Hints::of(vec![in alloc; Ref::Input(1), Ref::Input(2)]?),
        tag: 1,
    };
    let steps = Steps::of(vec![in alloc; step]?);
    Ok(Arc::new(alloc, Packet { steps })?)
}

// A board of two clients and one worker, with the worked job.
fn added(alloc: Global, rt: &impl Abort) -> Result<Board, AllocError>
    ensures job { IfOk result (λ board. segments board.journal ≡ worked_job ∷ []) }
    ensures nothing_begun { IfOk result (λ board. attempts board.journal ≡ []) }
    ensures budget { IfOk result (λ board. board.rules.conflicts ≡ 1) }
{
    let rules = Rules {
        clients: 2,
        workers: 1,
        attempts: 1,
        conflicts: 1,
        first: false,
        traces: true,
    };
    let mut board = Board::new(alloc, rules)?;
    match board.add(1, job(alloc, rt)?) {
        Ok(_) => Ok(board),
        Err(_) => panic!(rt; "not added"),
    }
}

// The same with the job taken.
fn begun(alloc: Global, rt: &impl Abort) -> Result<Board, AllocError>
    ensures job { IfOk result (λ board. segments board.journal ≡ worked_job ∷ []) }
    ensures own { IfOk result (λ board. IsOwn board 3 1) }
    ensures at { IfOk result (λ board. job_at board 1 ≡ 1) }
    ensures budget { IfOk result (λ board. board.rules.conflicts ≡ 1) }
{
    let mut board = added(alloc, rt)?;
    assert!(rt; board.rules().clients == 2 && board.rules().workers == 1);
    match board.take(3)? {
        Task::Job { job: 1, attempt: 1 } => Ok(board),
        _ => panic!(rt; "not taken"),
    }
}

// The same with the job cancelled.
fn cancelled(alloc: Global, rt: &impl Abort) -> Result<Board, AllocError>
    ensures job { IfOk result (λ board. segments board.journal ≡ worked_job ∷ []) }
    ensures own { IfOk result (λ board. IsOwn board 3 1) }
    ensures at { IfOk result (λ board. job_at board 1 ≡ 1) }
    ensures budget { IfOk result (λ board. board.rules.conflicts ≡ 1) }
{
    let mut board = begun(alloc, rt)?;
    assert!(rt; board.rules().clients == 2);
    match board.cancel(2, 1) {
        Ok(()) => Ok(board),
        Err(_) => panic!(rt; "not cancelled"),
    }
}

// A call by the worker.
fn share(rt: &impl Abort, board: &mut Board, packet: Arc<Packet>) -> Result<u32, ShareFault>
    requires job { segments board.old.journal ≡ worked_job ∷ [] }
    requires step { arc_value packet ≡ worked_step ∷ [] }
    ensures { segments board.new.journal ≡ worked_job ∷ [] }
{
    assert!(rt; board.rules().clients == 2 && board.rules().workers == 1);
    board.share(3, packet)
}

#[test]
fn a_job_has_the_segment_that_was_added(rt: HostRuntime) -> Result<(), Fail> {
    let alloc = rt.alloc();
    let board = added(alloc, &rt)?;
    let segment = board.segment(1)?;
    let clauses = segment.clauses.items();
    assert_eq!(rt; clauses.len(), 2);
    assert_eq!(rt; clauses[0].lits(), [lit(&rt, 1), lit(&rt, 2)].as_slice());
    assert_eq!(rt; clauses[1].lits(), [lit(&rt, -1)].as_slice());
    assert_eq!(rt; segment.cube.lits().len(), 0);
    Ok(())
}

#[test]
fn a_shared_packet_is_fetched(rt: HostRuntime) -> Result<(), Fail> {
    let alloc = rt.alloc();
    let mut board = added(alloc, &rt)?;
    assert_eq!(rt; share(&rt, &mut board, packet(alloc, &rt)?), Ok(1));
    assert_eq!(rt; board.packets(), 1);
    let fetched = board.fetch(0)?;
    assert_eq!(rt; fetched.len(), 1);
    let steps = fetched[0].steps.items();
    assert_eq!(rt; steps.len(), 1);
    assert!(rt; steps[0].clause == two(alloc, &rt)? && steps[0].tag == 1);
    assert_eq!(rt;
        steps[0].hints.items(),
        [Ref::Input(1), Ref::Input(2)].as_slice()
    );
    Ok(())
}

#[test]
fn as_many_packets_as_there_may_be_are_shared(rt: HostRuntime) -> Result<(), Fail> {
    let alloc = rt.alloc();
    let mut board = added(alloc, &rt)?;
    let packet = packet(alloc, &rt)?;
    for place in 1..=4_194_304 {
        assert_eq!(rt; share(&rt, &mut board, packet.clone()?), Ok(place));
    }
    assert_eq!(rt; share(&rt, &mut board, packet), Err(ShareFault::Full));
    assert_eq!(rt; board.packets(), 4_194_304);
    assert_eq!(rt; board.fetch(4_194_303)?.len(), 1);
    Ok(())
}

// The one list that the worked job's budget may be used up on.
fn learnt(alloc: Global, rt: &impl Abort) -> Result<Arc<Clauses>, AllocError>
    ensures { IfOk result (λ learnt. arc_value learnt ≡ (4 ∷ []) ∷ []) }
{
    let learnt = Clauses::of(vec![in alloc; two(alloc, rt)?]?);
    Ok(Arc::new(alloc, learnt)?)
}

#[test]
fn a_job_whose_attempts_used_up_their_budget_is_spent(rt: HostRuntime) -> Result<(), Fail> {
    let alloc = rt.alloc();
    let mut board = begun(alloc, &rt)?;
    let learnt = learnt(alloc, &rt)?;
    assert_eq!(rt; board.spend(3, 1, learnt), Ok(()));
    assert_eq!(rt; board.outcome(1), Ok(Outcome::Spent));
    assert!(rt; matches!(board.verdict(1), Ok(Verdict::Spent)));
    assert_eq!(rt; board.settled(), 1);
    Ok(())
}

// The worked job's only model: false, true.
fn model(alloc: Global) -> Result<Arc<Answer>, AllocError>
    ensures { IfOk result (λ given. arc_value given ≡ answer.Model (false ∷ true ∷ [])) }
{
    let model = Answer::Model(Assign::of(vec![in alloc; false, true]?));
    Ok(Arc::new(alloc, model)?)
}

#[test]
fn what_ends_an_attempt_at_a_cancelled_job_comes_late(rt: HostRuntime) -> Result<(), Fail> {
    let alloc = rt.alloc();
    let late = Late(Outcome::Cancelled(0));
    let mut board = cancelled(alloc, &rt)?;
    assert_eq!(rt; board.journal().len(), 3);
    let Err(starving) = board.starve(3, 1) else {
        panic!(rt; "starved");
    };
    let learnt = learnt(alloc, &rt)?;
    let Err(spending) = board.spend(3, 1, learnt) else {
        panic!(rt; "spent");
    };
    let model = model(alloc)?;
    let Err(deciding) = board.decide(3, 1, model) else {
        panic!(rt; "decided");
    };
    assert_eq!(rt; [starving, spending, deciding], [late, late, late]);
    assert_eq!(rt; board.journal().len(), 3);
    board.drop_attempt(3, 1);
    assert!(rt;
        matches!(
            board.journal().get(3),
            Some(Entry {
                caller: 3,
                event: Event::Dropped { attempt: 1 }
            })
        )
    );
    closing(alloc, &rt, &mut board)
}

// A board of four entries with nothing left to do is closed at place 5.
fn closing(alloc: Global, rt: &impl Abort, board: &mut Board) -> Result<(), Fail> {
    assert!(rt; board.rules().clients == 2 && board.rules().workers == 1);
    assert_eq!(rt; board.close_input(1), Ok(()));
    assert!(rt;
        matches!(
            board.journal().get(4),
            Some(Entry {
                caller: 1,
                event: Event::Closed
            })
        )
    );
    assert_eq!(rt; board.journal().len(), 5);
    assert!(rt; board.rules().clients == 2 && board.rules().workers == 1);
    assert_eq!(rt; board.close_input(2), Err(5));
    assert!(rt; board.rules().clients == 2 && board.rules().workers == 1);
    assert_eq!(rt; board.add(1, job(alloc, rt)?), Err(AddFault::Closed(5)));
    assert!(rt; board.rules().clients == 2 && board.rules().workers == 1);
    assert_eq!(rt; board.take(3)?, Task::Done);
    Ok(())
}

//! One attempt, from the entry that began it to the entry that ends it.

ghost use Rattle.std.specs.Prelude.{◌≡◌, ◌≤◌, ◌⊎◌, None, IsSome, IfOk, IfSome, OnOk, OnErr};
ghost use Rattle.entry_core.specs.Settled.{settled};
ghost use Rattle.board_core.specs.State.{entered};
ghost use Rattle.board_core.specs.Replies.{IsJob, IsOwn, job_at};
ghost use Rattle.worker_loop.specs.Attempts.{EndsBy, HasEnded, HasMade, IsAt, event_of};
ghost use Rattle.worker_loop.specs.Ends.{IsEnd};
ghost use Rattle.worker_loop.specs.Fits.{Fits};
ghost use Rattle.worker_loop.specs.Kept.{KeepsLearnt};
ghost use Rattle.worker_loop.specs.Rounds.{HasPursued};

use crate::attempt::Attempt;
use crate::attempts::pursue;
use crate::bench::Bench;
use crate::ends::End;
use crate::loading::bring_to;
use board_core::{Board, Late};
use std::alloc::{AllocError, Global};

/// Makes an attempt that was begun, and ends it. After want of memory it ends as starved, and the
/// bench is a new one.
pub(crate) fn make_attempt(
    alloc: Global,
    board: &mut Board,
    caller: u32,
    bench: &mut Bench,
    job: u32,
    number: u32,
)
    requires at { IsAt board.old caller number job }
    requires fits { Fits bench.old board.old.journal }
    ensures ended { HasEnded board.old board.new caller number job }
    ensures made { HasMade board.old board.new caller number job bench.old bench.new }
    ensures fits { Fits bench.new board.new.journal }
{
    match pursue_job(alloc, board, bench, job, number) {
        Ok(end) => end_attempt(board, caller, number, Some(end)),
        Err(AllocError) => {
            end_attempt(board, caller, number, None);
            *bench = Bench::new(alloc, 0);
        }
    }
}

/// Brings the bench to the job, and pursues the attempt up to its end.
pub(crate) fn pursue_job(
    alloc: Global,
    board: &Board,
    bench: &mut Bench,
    job: u32,
    number: u32,
) -> Result<End, AllocError>
    requires job { IsJob board.now job }
    requires fits { Fits bench.old board.now.journal }
    ensures fits { OnOk result (Fits bench.new board.now.journal) }
    ensures bound { OnOk result (bench.new.session.solver.bound ≡ job) }
    ensures end { IfOk result (IsEnd board.now.rules board.now.journal job) }
    // No more is learnt than the budget allows, and a spent list is what was learnt since.
    ensures pursued { IfOk result (HasPursued bench.old.session.solver bench.new.session.solver
        job board.now.rules.conflicts) }
    ensures kept { bench.old.session.solver.bound ≤ job
        → KeepsLearnt bench.old.session.solver bench.new.session.solver }
{
    bring_to(alloc, board, bench, job)?;
    let segment = board.segment(job)?;
    let cube = segment.cube.copy(alloc)?;
    let mut attempt = Attempt {
        job,
        number,
        cube,
        learnt: Vec::new(alloc),
    };
    // A legal journal keeps the packets ok, and the rules allow a clause at least.
    let _ = board.journal();
    let rules = board.rules();
    pursue(alloc, bench, &mut attempt, rules.conflicts, rules.traces)
}

/// Ends an attempt in this way, or as starved where there is no end, and drops it where its job
/// is settled. This is all that a hold of the board does at the end of an attempt. Takes no
/// memory.
pub(crate) fn end_attempt(board: &mut Board, caller: u32, number: u32, end: Option<End>)
    requires own { IsOwn board.old caller number }
    requires right { IfSome end
        (IsEnd board.old.rules board.old.journal (job_at board.old number)) }
    ensures { EndsBy board.old board.new caller number (event_of number end) }
{
    if write_end(board, caller, number, end).is_err() {
        board.drop_attempt(caller, number);
    }
}

// Writes the end down, unless the job is settled: then the board is as before.
fn write_end(board: &mut Board, caller: u32, number: u32, end: Option<End>) -> Result<(), Late>
    requires own { IsOwn board.old caller number }
    requires right { IfSome end
        (IsEnd board.old.rules board.old.journal (job_at board.old number)) }
    ensures ok { OnOk result (board.new ≡ entered board.old caller (event_of number end)) }
    ensures late { OnErr result
        (IsSome (settled board.old.rules board.old.journal (job_at board.old number))) }
    ensures err { OnErr result (board.new ≡ board.old) }
{
    match end {
        Some(End::Answered(answer)) => board.decide(caller, number, answer),
        Some(End::Spent(learnt)) => board.spend(caller, number, learnt),
        None => board.starve(caller, number),
    }
}

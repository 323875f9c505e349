//! A worker alone on a board.

ghost use Rattle.std.specs.Prelude.{◌≡◌, ◌<◌, ℕ, IsSome, IsTrue, false, IfOk, OnErr, OnOk};
ghost use Rattle.entry_core.specs.Legal.{IsWorker};
ghost use Rattle.entry_core.specs.Schedule.{IsNext, IsWaiting};
ghost use Rattle.entry_core.specs.Settled.{settled};
ghost use Rattle.board_core.specs.Replies.{IsJob};
ghost use Rattle.worker_loop.specs.Fits.{Fits};
ghost use Rattle.worker_loop.specs.Working.{EndsEachOnce, HasAttemptsMore, IsResting};
ghost use Rattle.worker_loop.specs.Attempts.{IsBeforeWaiting, KeepsOn, left_on};

use crate::bench::Bench;
use crate::ending::make_attempt;
use board_core::{Board, Task};
use std::alloc::{AllocError, Global};

/// Makes attempts at the jobs of the board until none is to take. Want of memory within an
/// attempt ends it as starved, and the work goes on with a new bench; so the error comes from
/// taking a job alone. No attempt is dropped, since nobody else settles its job meanwhile.
pub fn work_alone(
    alloc: Global,
    board: &mut Board,
    caller: u32,
    bench: &mut Bench,
) -> Result<(), AllocError>
    requires worker { IsWorker board.old.rules caller }
    requires resting { IsResting board.old caller }
    requires fits { Fits bench.old board.old.journal }
    ensures works { HasAttemptsMore board.old board.new caller }
    ensures resting { IsResting board.new caller }
    ensures ended { EndsEachOnce board.new caller }
    ensures fits { Fits bench.new board.new.journal }
    // The error comes from taking a job alone.
    ensures wanted { OnErr result
        ((job : ℕ) × IsNext board.new.rules board.new.journal job) }
    ensures idle { OnOk result ((job : ℕ) → ¬ IsWaiting board.new.rules board.new.journal job) }
    // With one worker, nothing that was learnt is lost, unless an attempt found no memory.
    ensures kept { board.old.rules.workers ≡ 1 → IsBeforeWaiting bench.old board.old
        → KeepsOn board.old board.new bench.old bench.new }
    // With one worker, nothing is left to do.
    ensures settled { OnOk result
        (board.old.rules.workers ≡ 1 → (job : ℕ) → IsJob board.new job
        → IsSome (settled board.new.rules board.new.journal job)) }
{
    'attempts: while work_once(alloc, board, caller, bench)? {}
    // What every board keeps is told with its rules and its journal.
    let _ = board.rules();
    let _ = board.journal();
    Ok(())
}

/// Makes an attempt at the job to take, if there is one, and tells whether there was.
fn work_once(
    alloc: Global,
    board: &mut Board,
    caller: u32,
    bench: &mut Bench,
) -> Result<bool, AllocError>
    requires worker { IsWorker board.old.rules caller }
    requires resting { IsResting board.old caller }
    requires fits { Fits bench.old board.old.journal }
    ensures works { HasAttemptsMore board.old board.new caller }
    ensures resting { IsResting board.new caller }
    ensures ended { EndsEachOnce board.new caller }
    ensures wanted { OnErr result
        ((job : ℕ) × IsNext board.new.rules board.new.journal job) }
    ensures fits { Fits bench.new board.new.journal }
    // With one worker, nothing that was learnt is lost, unless an attempt found no memory.
    ensures kept { board.old.rules.workers ≡ 1 → IsBeforeWaiting bench.old board.old
        → KeepsOn board.old board.new bench.old bench.new }
    ensures fewer { IfOk result (λ made. IsTrue made → left_on board.new < left_on board.old) }
    ensures idle { IfOk result
        (λ made. made ≡ false → (job : ℕ) → ¬ IsWaiting board.new.rules board.new.journal job) }
{
    // In a legal journal a worker that rests has no open attempt.
    let _ = board.journal();
    match board.take(caller)? {
        Task::Job { job, attempt } => {
            make_attempt(alloc, board, caller, bench, job, attempt);
            let _ = board.journal();
            Ok(true)
        }
        Task::Done | Task::Idle => Ok(false),
    }
}

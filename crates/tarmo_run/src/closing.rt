//! What is left to do when the sides of a run have ended.

ghost use Rattle.std.specs.Prelude.{◌≡◌, ◌⊎◌, ℕ, Bool, List, Option, [], IsOk, IsSome, IfOk, OnErr};
ghost use Rattle.std.specs.Prelude.{OnOk, true};
ghost use Rattle.entry_core.specs.Journal.{is_closed};
ghost use Rattle.entry_core.specs.Legal.{IsClient};
ghost use Rattle.entry_core.specs.Settled.{cancelled, settled};
ghost use Rattle.run_io.specs.Fault.{HasCause};
ghost use Rattle.tarmo_run.specs.Ended.{Finished, FinishedInPart};
ghost use Rattle.tarmo_run.specs.Growth.{HasNoJobMore, StayResting};
ghost use Rattle.tarmo_run.specs.Output.{AreSettled, UnlessExhausted};
ghost use Rattle.tarmo_run.specs.Reading.{ReadsThrough};
ghost use Rattle.tarmo_run.specs.Writer.{Breaks, HasAllBlocks, HasCounted, HasWritten, Writes};
ghost use Rattle.tarmo_run.specs.declared.endings.Ending.TheVariants as endings;

use crate::client::close_input;
use crate::endings::Ending;
use crate::writer::{Halt, Writer};
use board_core::Board;
use run_io::{Failed, Sink};
use std::alloc::{AllocError, Global};

/// Writes the blocks that are still to be written, and the last line. Where a job isn't settled,
/// memory ran out for every worker.
pub(crate) fn finish_text<O: Sink>(
    alloc: Global,
    trace: bool,
    ending: Ending,
    board: &mut Board,
    writer: Writer,
    out: &mut O,
) -> Result<Ending, Failed>
    requires client { IsClient board.old.rules 1 }
    requires counted { HasCounted writer board.old }
    ensures more { HasNoJobMore board.old board.new }
    ensures resting { StayResting board.old board.new }
    ensures finished { IfOk result (λ told. (before left_before left_after : Option (List ℕ))
        (ended failed : Bool) →
        ReadsThrough ending left_before left_after ended failed board.old →
        HasWritten trace writer board.old before (O.taken out.old) →
        cancelled board.old.journal ≡ [] →
        Finished trace told left_before left_after ended failed board.new before
        (O.taken out.new)) }
    ensures front { OnErr result ((before left_before left_after : Option (List ℕ))
        (ended failed : Bool) →
        ReadsThrough ending left_before left_after ended failed board.old →
        HasWritten trace writer board.old before (O.taken out.old) →
        FinishedInPart trace left_before left_after ended failed board.new before
        (O.taken out.new)) }
    ensures which { IfOk result (λ told. (told ≡ ending) ⊎ (told ≡ endings.Exhausted)) }
    ensures closed { OnOk result (is_closed board.new.journal ≡ true) }
    ensures cause { HasCause (O.faults out.old) (O.faults out.new) result }
{
    let mut writer = writer;
    let ending = write_rest(trace, ending, board, &mut writer, out)?;
    close_input(board);
    ending.close(alloc, out)
}

// Writes the blocks that are still to be written. Where it can't write all, memory ran out.
fn write_rest<O: Sink>(
    trace: bool,
    ending: Ending,
    board: &Board,
    writer: &mut Writer,
    out: &mut O,
) -> Result<Ending, Failed>
    requires counted { HasCounted writer.old board.now }
    ensures counted { HasCounted writer.new board.now }
    ensures which { IfOk result (λ told. (told ≡ ending) ⊎ (told ≡ endings.Exhausted)) }
    ensures answered { IfOk result
        (λ told. UnlessExhausted told (HasAllBlocks writer.new board.now)) }
    ensures writes { OnOk result
        (Writes trace board.now writer.old writer.new (O.taken out.old) (O.taken out.new)) }
    ensures breaks { OnErr result
        (Breaks trace board.now writer.old (O.taken out.old) (O.taken out.new)) }
    ensures cause { HasCause (O.faults out.old) (O.faults out.new) result }
{
    match writer.write_settled(board, trace, out) {
        Ok(()) => Ok(ending_over(board, ending)),
        Err(Halt::Memory) => Ok(Ending::Exhausted),
        Err(Halt::Unwritten) => Err(Failed),
    }
}

// The ending, where each job is settled.
fn ending_over(board: &Board, ending: Ending) -> Ending
    ensures which { (result ≡ ending) ⊎ (result ≡ endings.Exhausted) }
    ensures settled { UnlessExhausted result (AreSettled board.now) }
{
    if are_settled(board) {
        ending
    } else {
        Ending::Exhausted
    }
}

/// Whether the jobs of a run were added and settled: an error is want of memory.
pub(crate) fn settled_if(added: Result<(), AllocError>, board: &Board) -> Result<(), AllocError>
    ensures { OnOk result (IsOk added × AreSettled board.now) }
{
    added?;
    if are_settled(board) {
        Ok(())
    } else {
        Err(AllocError)
    }
}

// Whether each job is settled.
fn are_settled(board: &Board) -> bool
    ensures { result ≡ true → AreSettled board.now }
{
    let jobs = board.jobs();
    let mut job = 0;
    while job < jobs {
        job += 1;
        if !is_settled(board, job) {
            return false;
        }
    }
    true
}

fn is_settled(board: &Board, job: u32) -> bool
    ensures { result ≡ true → IsSome (settled board.now.rules board.now.journal job) }
{
    board.outcome(job).is_ok()
}

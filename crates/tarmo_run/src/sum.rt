//! A run over the text that a number stands for, which ends in a summary.

ghost use Rattle.std.specs.Prelude.{◌≡◌, None, true, false, IfOk, OnErr, OnOk};
ghost use Rattle.icnf_gen.specs.Drawn.{generated};
ghost use Rattle.icnf_text.specs.Judgement.{wrong};
ghost use Rattle.icnf_text.specs.Printed.{printed};
ghost use Rattle.run_io.specs.Fault.{HasCause};
ghost use Rattle.tarmo_run.specs.Client.{queries_on};
ghost use Rattle.tarmo_run.specs.Desk.{IsBetweenPieces, IsFresh};
ghost use Rattle.tarmo_run.specs.Ended.{EndsSum, TookFrontOfSummary, TookSummary};
ghost use Rattle.tarmo_run.specs.Output.{AreSettled, queries_in, reading_of};
ghost use Rattle.tarmo_run.specs.Reading.{AsksFirst};

use crate::desk::Desk;
use crate::endings::{Ending, close_without_memory};
use crate::summary::summary;
use board_core::Board;
use icnf_gen::make;
use icnf_text::Reader;
use run_io::{Failed, Sink, write_all};
use std::alloc::{AllocError, Global};

/// Adds the jobs of the number's text, and works until each is settled. Where memory runs out, the
/// board has the first jobs of the text.
pub(crate) fn settle_sum(alloc: Global, number: u64, desk: &mut Desk) -> Result<(), AllocError>
    requires fresh { IsFresh desk.old }
    requires between { IsBetweenPieces desk.old }
    ensures between { IsBetweenPieces desk.new }
    ensures rules { desk.new.board.rules ≡ desk.old.board.rules }
    ensures first { AsksFirst (reading_of number) desk.new.board }
    ensures all { OnOk result
        (queries_on desk.new.board ≡ queries_in (printed (generated number)) true) }
    ensures settled { OnOk result (AreSettled desk.new.board) }
    ensures accepted { OnOk result (wrong (printed (generated number)) true ≡ None) }
{
    match make(alloc, number) {
        Ok(text) => settle_text(alloc, &text, desk),
        Err(refused) => Err(refused),
    }
}

// Adds the jobs of a whole text, and works until each is settled.
fn settle_text(alloc: Global, text: &[u8], desk: &mut Desk) -> Result<(), AllocError>
    requires fresh { IsFresh desk.old }
    requires between { IsBetweenPieces desk.old }
    ensures between { IsBetweenPieces desk.new }
    ensures rules { desk.new.board.rules ≡ desk.old.board.rules }
    ensures first { AsksFirst (record { bytes = text.now; ended = true; failed = false })
        desk.new.board }
    ensures all { OnOk result (queries_on desk.new.board ≡ queries_in text.now true) }
    ensures settled { OnOk result (AreSettled desk.new.board) }
{
    let mut reader = Reader::new(alloc);
    let fed = reader.feed(text)?;
    let rest = reader.finish()?;
    desk.advance(fed.statements.into_items())?;
    desk.advance(rest.statements.into_items())
}

/// Writes the summary of the board over the number's text and the last line, and flushes. Where the
/// jobs weren't settled for want of memory, or there is none for the summary, it writes the last
/// line alone.
pub(crate) fn show_sum<O: Sink>(
    alloc: Global,
    number: u64,
    settled: Result<(), AllocError>,
    board: &Board,
    out: &mut O,
) -> Result<Ending, Failed>
    ensures took { IfOk result (λ ending.
        TookSummary number ending board.now (O.taken out.old) (O.taken out.new)) }
    ensures ends { IfOk result (λ ending. EndsSum settled ending board.now) }
    ensures front { OnErr result
        (TookFrontOfSummary number settled board.now (O.taken out.old) (O.taken out.new)) }
    ensures cause { HasCause (O.faults out.old) (O.faults out.new) result }
{
    if settled.is_err() {
        return close_without_memory(out);
    }
    match summary(alloc, number, board) {
        Ok(lines) => {
            write_all(out, &lines)?;
            Ending::Complete(board.jobs() as u64).close(alloc, out)
        }
        Err(_) => close_without_memory(out),
    }
}

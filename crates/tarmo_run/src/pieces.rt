//! A text that comes in pieces, and is answered as it comes.

ghost use Rattle.std.specs.Prelude.{◌≡◌, ◌<◌, ◌≤◌, ◌++◌, ℕ, List, Bool, None, Some, false, true};
ghost use Rattle.std.specs.Prelude.{nat_lt, length, IfOk, OnErr, OnOk, MatchOption, Option};
ghost use Rattle.std.specs.Prelude.{option_map};
ghost use Rattle.run_io.specs.Bytes.{IsEmptyWhereTold};
ghost use Rattle.run_io.specs.Fault.{HasCause, last_count};
ghost use Rattle.tarmo_run.specs.Client.{Adds, AddsFirst};
ghost use Rattle.tarmo_run.specs.Desk.{HasAnswered, IsBetweenPieces, IsFresh, Shows, ShowsFront};
ghost use Rattle.tarmo_run.specs.Desk.{progress_of};
ghost use Rattle.tarmo_run.specs.Output.{UnlessCutShort, longest_piece};
ghost use Rattle.tarmo_run.specs.Reading.{AsksFirst, IsCaughtUp, IsThrough, ReadsInPart};
ghost use Rattle.tarmo_run.specs.Reading.{ReadsThrough, StopsBy, ending_behind};

use crate::desk::Desk;
use crate::endings::Ending;
use crate::writer::Halt;
use icnf_text::{Fault, Fed, Reader};
use run_io::{Failed, Sink, Source};
use std::alloc::{AllocError, Global};

/// The most bytes that are asked of one read.
pub(crate) const PIECE: usize = 65_536;

/// A buffer for one piece.
pub(crate) fn buffer(alloc: Global, len: usize) -> Result<Vec<u8>, AllocError>
    ensures { IfOk result (λ buffer. length buffer.items ≡ len) }
{
    vec![in alloc; 0u8; len]
}

/// Starts the source with the name of its file, if it has one, reads its text piece by piece,
/// settles the jobs that have ended, and writes their blocks before it reads on. It stops at the
/// end of the text, at its first wrong place, where the source fails, or where memory runs out.
pub(crate) fn show_blocks<S: Source, O: Sink>(
    alloc: Global,
    trace: bool,
    file: Option<&str>,
    desk: &mut Desk,
    source: &mut S,
    out: &mut O,
) -> Result<Ending, Failed>
    requires fresh { IsFresh desk.old }
    requires between { IsBetweenPieces desk.old }
    requires source_faults { S.faults source.old < last_count }
    requires unread { S.ended source.old ≡ false }
    ensures between { IsBetweenPieces desk.new }
    ensures rules { desk.new.board.rules ≡ desk.old.board.rules }
    ensures through { IfOk result (λ ending.
        ReadsThrough ending (S.left source.old) (S.left source.new) (S.ended source.new)
        (nat_lt (S.faults source.old) (S.faults source.new)) desk.new.board) }
    ensures answered { IfOk result (λ ending. HasAnswered (Some ending) desk.new) }
    ensures in_part { OnErr result
        (ReadsInPart (S.left source.old) (S.left source.new) (S.ended source.new)
        (nat_lt (S.faults source.old) (S.faults source.new)) desk.new.board) }
    ensures writes { OnOk result
        (Shows trace desk.old desk.new (O.taken out.old) (O.taken out.new)) }
    ensures breaks { OnErr result
        (ShowsFront trace desk.old desk.new (O.taken out.old) (O.taken out.new)) }
    ensures opened { IfOk result (λ ending. UnlessCutShort ending
        (S.opened source.new (option_map (λ bytes. bytes.now) file.entry) ≡ true)) }
    ensures whole { S.ended source.new ≡ true → IsEmptyWhereTold (S.left source.new) }
    ensures later { S.faults source.old ≤ S.faults source.new }
    ensures cause { HasCause (O.faults out.old) (O.faults out.new) result }
{
    let Ok(mut buffer) = buffer(alloc, PIECE) else {
        return Ok(Ending::Exhausted);
    };
    match source.start(file) {
        Ok(()) => answer_pieces(alloc, trace, desk, &mut buffer, source, out),
        Err(Failed) => Ok(Ending::Unread),
    }
}

// Reads and answers, a buffer at a time.
fn answer_pieces<S: Source, O: Sink>(
    alloc: Global,
    trace: bool,
    desk: &mut Desk,
    buffer: &mut [u8],
    source: &mut S,
    out: &mut O,
) -> Result<Ending, Failed>
    requires fresh { IsFresh desk.old }
    requires between { IsBetweenPieces desk.old }
    requires room { 0 < length buffer.old }
    requires short { length buffer.old ≤ longest_piece }
    requires source_faults { S.faults source.old < last_count }
    requires unread { S.ended source.old ≡ false }
    ensures between { IsBetweenPieces desk.new }
    ensures rules { desk.new.board.rules ≡ desk.old.board.rules }
    ensures through { IfOk result (λ ending.
        ReadsThrough ending (S.left source.old) (S.left source.new) (S.ended source.new)
        (nat_lt (S.faults source.old) (S.faults source.new)) desk.new.board) }
    ensures answered { IfOk result (λ ending. HasAnswered (Some ending) desk.new) }
    ensures in_part { OnErr result
        (ReadsInPart (S.left source.old) (S.left source.new) (S.ended source.new)
        (nat_lt (S.faults source.old) (S.faults source.new)) desk.new.board) }
    ensures writes { OnOk result
        (Shows trace desk.old desk.new (O.taken out.old) (O.taken out.new)) }
    ensures breaks { OnErr result
        (ShowsFront trace desk.old desk.new (O.taken out.old) (O.taken out.new)) }
    ensures opened { (name : Option (List ℕ)) → S.opened source.old name ≡ true →
        S.opened source.new name ≡ true }
    ensures whole { S.ended source.new ≡ true → IsEmptyWhereTold (S.left source.new) }
    ensures later { S.faults source.old ≤ S.faults source.new }
    ensures cause { HasCause (O.faults out.old) (O.faults out.new) result }
{
    let mut reader = Reader::new(alloc);
    loop {
        let Ok(count) = source.read(buffer) else {
            return Ok(Ending::Unread);
        };
        if count == 0 {
            return answer_rest(reader, desk, trace, out);
        }
        match answer_piece(&mut reader, desk, trace, &buffer[..count], out)? {
            Some(ending) => return Ok(ending),
            None => {}
        }
    }
}

// Answers the jobs that a piece ended. The run ends there at a wrong place, or where memory runs
// out.
fn answer_piece<O: Sink>(
    reader: &mut Reader,
    desk: &mut Desk,
    trace: bool,
    piece: &[u8],
    out: &mut O,
) -> Result<Option<Ending>, Failed>
    requires between { IsBetweenPieces desk.old }
    ensures between { IsBetweenPieces desk.new }
    ensures rules { desk.new.board.rules ≡ desk.old.board.rules }
    ensures through { IfOk result (λ stop. (bytes : List ℕ) (failed : Bool) →
        failed ≡ false → IsCaughtUp reader.old (progress_of desk.old) bytes →
        MatchOption stop
        (IsCaughtUp reader.new (progress_of desk.new) (bytes ++ piece.now))
        (λ ending. IsThrough ending
        (record { bytes = bytes ++ piece.now; ended = false; failed = failed })
        desk.new.board)) }
    ensures answered { IfOk result (λ stop. HasAnswered stop desk.new) }
    ensures in_part { OnErr result ((bytes : List ℕ) (failed : Bool) →
        IsCaughtUp reader.old (progress_of desk.old) bytes → AsksFirst
        (record { bytes = bytes ++ piece.now; ended = false; failed = failed }) desk.new.board) }
    ensures writes { OnOk result
        (Shows trace desk.old desk.new (O.taken out.old) (O.taken out.new)) }
    ensures breaks { OnErr result
        (ShowsFront trace desk.old desk.new (O.taken out.old) (O.taken out.new)) }
    ensures cause { HasCause (O.faults out.old) (O.faults out.new) result }
{
    match reader.feed(piece) {
        Ok(fed) => answer_fed(desk, trace, fed, out),
        Err(_) => Ok(Some(Ending::Exhausted)),
    }
}

// Ends the text, and answers the jobs that its end ended.
fn answer_rest<O: Sink>(
    reader: Reader,
    desk: &mut Desk,
    trace: bool,
    out: &mut O,
) -> Result<Ending, Failed>
    requires between { IsBetweenPieces desk.old }
    ensures between { IsBetweenPieces desk.new }
    ensures rules { desk.new.board.rules ≡ desk.old.board.rules }
    ensures through { IfOk result (λ ending. (bytes : List ℕ) (failed : Bool) →
        failed ≡ false → IsCaughtUp reader (progress_of desk.old) bytes →
        IsThrough ending (record { bytes = bytes; ended = true; failed = failed })
        desk.new.board) }
    ensures answered { IfOk result (λ ending. HasAnswered (Some ending) desk.new) }
    ensures in_part { OnErr result ((bytes : List ℕ) (failed : Bool) →
        IsCaughtUp reader (progress_of desk.old) bytes →
        AsksFirst (record { bytes = bytes; ended = true; failed = failed }) desk.new.board) }
    ensures writes { OnOk result
        (Shows trace desk.old desk.new (O.taken out.old) (O.taken out.new)) }
    ensures breaks { OnErr result
        (ShowsFront trace desk.old desk.new (O.taken out.old) (O.taken out.new)) }
    ensures cause { HasCause (O.faults out.old) (O.faults out.new) result }
{
    match reader.finish() {
        Ok(fed) => match answer_fed(desk, trace, fed, out)? {
            Some(ending) => Ok(ending),
            None => Ok(Ending::Complete(desk.board.jobs() as u64)),
        },
        Err(_) => Ok(Ending::Exhausted),
    }
}

// Answers the jobs of statements that were read. The run ends behind them at a wrong place, or
// where memory runs out.
fn answer_fed<O: Sink>(
    desk: &mut Desk,
    trace: bool,
    fed: Fed,
    out: &mut O,
) -> Result<Option<Ending>, Failed>
    requires between { IsBetweenPieces desk.old }
    ensures between { IsBetweenPieces desk.new }
    ensures rules { desk.new.board.rules ≡ desk.old.board.rules }
    ensures stops { IfOk result (λ stop. MatchOption stop
        ((fed.fault ≡ None) × Adds desk.old.client desk.old.board desk.new.client desk.new.board
        fed.statements)
        (λ ending. StopsBy ending fed.fault (progress_of desk.old) (progress_of desk.new)
        fed.statements)) }
    ensures answered { IfOk result (λ stop. HasAnswered stop desk.new) }
    ensures first { OnErr result
        (AddsFirst desk.old.client desk.old.board desk.new.board fed.statements) }
    ensures writes { OnOk result
        (Shows trace desk.old desk.new (O.taken out.old) (O.taken out.new)) }
    ensures breaks { OnErr result
        (ShowsFront trace desk.old desk.new (O.taken out.old) (O.taken out.new)) }
    ensures cause { HasCause (O.faults out.old) (O.faults out.new) result }
{
    let advanced = desk.advance(fed.statements.into_items());
    match desk.writer.write_settled(&desk.board, trace, out) {
        Ok(()) => Ok(ending_behind(advanced, fed.fault)),
        Err(Halt::Memory) => Ok(Some(Ending::Exhausted)),
        Err(Halt::Unwritten) => Err(Failed),
    }
}

/// Where a run stops behind statements: where memory ran out, or at a wrong place.
pub(crate) fn ending_behind(
    advanced: Result<(), AllocError>,
    fault: Option<Fault>,
) -> Option<Ending>
    ensures { result ≡ ending_behind advanced fault }
{
    match advanced {
        Ok(()) => fault.map(Ending::Refused),
        Err(_) => Some(Ending::Exhausted),
    }
}

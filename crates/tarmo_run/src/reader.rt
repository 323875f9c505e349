//! The side of a run that reads: it adds the jobs of a text as they come.

ghost use Rattle.std.specs.Prelude.{◌≡◌, ◌<◌, ◌≤◌, ◌++◌, ℕ, List, Bool, None, false, true, nat_lt};
ghost use Rattle.std.specs.Prelude.{Option, length, MatchOption, OnOk, option_map};
ghost use Rattle.icnf_gen.specs.Drawn.{generated};
ghost use Rattle.icnf_text.specs.Judgement.{wrong};
ghost use Rattle.icnf_text.specs.Printed.{printed};
ghost use Rattle.run_io.specs.Bytes.{IsEmptyWhereTold};
ghost use Rattle.run_io.specs.Fault.{last_count};
ghost use Rattle.tarmo_run.specs.Client.{Adds, queries_on};
ghost use Rattle.tarmo_run.specs.Output.{UnlessCutShort, longest_piece, queries_in, reading_of};
ghost use Rattle.tarmo_run.specs.Reading.{AsksFirst, IsCaughtUp, IsNew, IsThrough, ReadsThrough};
ghost use Rattle.tarmo_run.specs.Reading.{ReadsSum, StopsBy};
ghost use Rattle.tarmo_run.specs.Sides.{HasReadText, IsAdder, own_of, progress_by};

use crate::adder::Adder;
use crate::endings::Ending;
use crate::meeting::Meeting;
use crate::pieces::{PIECE, buffer, ending_behind};
use icnf_gen::make;
use icnf_text::{Fed, Reader};
use run_io::{Failed, Source};
use service::Service;
use std::alloc::{AllocError, Global};
use std::sync::Wait;

/// Starts the source with the name of its file, if it has one, reads its text piece by piece, adds
/// the jobs that have ended, and says that no more come. It stops at the end of the text, at its
/// first wrong place, where the source fails, where memory runs out, or once the sink has failed.
pub(crate) fn read_text<R: Wait, S: Source>(
    rt: &R,
    alloc: Global,
    service: &Service,
    meeting: &Meeting,
    file: Option<&str>,
    adder: &mut Adder,
    source: &mut S,
) -> Ending
    requires adder { IsAdder service.now.lock adder.old }
    requires new { IsNew (progress_by service.now.lock adder.old) }
    requires source_faults { S.faults source.old < last_count }
    requires unread { S.ended source.old ≡ false }
    ensures { HasReadText S.left S.faults S.ended S.opened service.now.lock
        (option_map (λ bytes. bytes.now) file.entry) result adder.new source.old source.new }
{
    let ending = read_source(rt, alloc, service, meeting, file, adder, source);
    adder.close_input(rt, service);
    meeting.end();
    service.ring();
    ending
}

// Starts the source, and reads it.
fn read_source<R: Wait, S: Source>(
    rt: &R,
    alloc: Global,
    service: &Service,
    meeting: &Meeting,
    file: Option<&str>,
    adder: &mut Adder,
    source: &mut S,
) -> Ending
    requires adder { IsAdder service.now.lock adder.old }
    requires new { IsNew (progress_by service.now.lock adder.old) }
    requires source_faults { S.faults source.old < last_count }
    requires unread { S.ended source.old ≡ false }
    ensures adder { IsAdder service.now.lock adder.new }
    ensures through { ReadsThrough result (S.left source.old) (S.left source.new)
        (S.ended source.new) (nat_lt (S.faults source.old) (S.faults source.new))
        (own_of service.now.lock adder.new.pass) }
    ensures opened { UnlessCutShort result
        (S.opened source.new (option_map (λ bytes. bytes.now) file.entry) ≡ true) }
    ensures whole { S.ended source.new ≡ true → IsEmptyWhereTold (S.left source.new) }
    ensures later { S.faults source.old ≤ S.faults source.new }
{
    let Ok(mut buffer) = buffer(alloc, PIECE) else {
        return Ending::Exhausted;
    };
    match source.start(file) {
        Ok(()) => read_pieces(rt, alloc, service, meeting, adder, &mut buffer, source),
        Err(Failed) => Ending::Unread,
    }
}

// Reads, and adds the jobs of what was read, a buffer at a time.
fn read_pieces<R: Wait, S: Source>(
    rt: &R,
    alloc: Global,
    service: &Service,
    meeting: &Meeting,
    adder: &mut Adder,
    buffer: &mut [u8],
    source: &mut S,
) -> Ending
    requires adder { IsAdder service.now.lock adder.old }
    requires new { IsNew (progress_by service.now.lock adder.old) }
    requires room { 0 < length buffer.old }
    requires short { length buffer.old ≤ longest_piece }
    requires source_faults { S.faults source.old < last_count }
    requires unread { S.ended source.old ≡ false }
    ensures adder { IsAdder service.now.lock adder.new }
    ensures through { ReadsThrough result (S.left source.old) (S.left source.new)
        (S.ended source.new) (nat_lt (S.faults source.old) (S.faults source.new))
        (own_of service.now.lock adder.new.pass) }
    ensures opened { (name : Option (List ℕ)) → S.opened source.old name ≡ true →
        S.opened source.new name ≡ true }
    ensures whole { S.ended source.new ≡ true → IsEmptyWhereTold (S.left source.new) }
    ensures later { S.faults source.old ≤ S.faults source.new }
{
    let mut reader = Reader::new(alloc);
    loop {
        let Ok(count) = source.read(buffer) else {
            return Ending::Unread;
        };
        if count == 0 {
            return add_rest(rt, service, reader, adder);
        }
        match add_piece(rt, service, meeting, &mut reader, adder, &buffer[..count]) {
            Some(ending) => return ending,
            None => {}
        }
    }
}

// Adds the jobs that a piece ended. The reading ends there at a wrong place, or where memory runs
// out.
fn add_piece<R: Wait>(
    rt: &R,
    service: &Service,
    meeting: &Meeting,
    reader: &mut Reader,
    adder: &mut Adder,
    piece: &[u8],
) -> Option<Ending>
    requires adder { IsAdder service.now.lock adder.old }
    ensures adder { IsAdder service.now.lock adder.new }
    ensures through { (bytes : List ℕ) (failed : Bool) → failed ≡ false →
        IsCaughtUp reader.old (progress_by service.now.lock adder.old) bytes →
        MatchOption result
        (IsCaughtUp reader.new (progress_by service.now.lock adder.new) (bytes ++ piece.now))
        (λ ending. IsThrough ending
        (record { bytes = bytes ++ piece.now; ended = false; failed = failed })
        (own_of service.now.lock adder.new.pass)) }
{
    if meeting.is_broken() {
        return Some(Ending::Exhausted);
    }
    match reader.feed(piece) {
        Ok(fed) => add_fed(rt, service, adder, fed),
        Err(_) => Some(Ending::Exhausted),
    }
}

// Ends the text, and adds the jobs that its end ended.
fn add_rest<R: Wait>(rt: &R, service: &Service, reader: Reader, adder: &mut Adder) -> Ending
    requires adder { IsAdder service.now.lock adder.old }
    ensures adder { IsAdder service.now.lock adder.new }
    ensures through { (bytes : List ℕ) (failed : Bool) → failed ≡ false →
        IsCaughtUp reader (progress_by service.now.lock adder.old) bytes →
        IsThrough result (record { bytes = bytes; ended = true; failed = failed })
        (own_of service.now.lock adder.new.pass) }
{
    match reader.finish() {
        Ok(fed) => match add_fed(rt, service, adder, fed) {
            Some(ending) => ending,
            None => Ending::Complete(adder.added as u64),
        },
        Err(_) => Ending::Exhausted,
    }
}

// Adds the jobs of statements that were read. The reading ends behind them at a wrong place, or
// where memory runs out.
fn add_fed<R: Wait>(rt: &R, service: &Service, adder: &mut Adder, fed: Fed) -> Option<Ending>
    requires adder { IsAdder service.now.lock adder.old }
    ensures adder { IsAdder service.now.lock adder.new }
    ensures stops { MatchOption result
        ((fed.fault ≡ None) × Adds adder.old.client (own_of service.now.lock adder.old.pass)
        adder.new.client (own_of service.now.lock adder.new.pass) fed.statements)
        (λ ending. StopsBy ending fed.fault (progress_by service.now.lock adder.old)
        (progress_by service.now.lock adder.new) fed.statements) }
{
    let added = adder.add_all(rt, service, fed.statements.into_items());
    ending_behind(added, fed.fault)
}

/// Adds the jobs of the number's text, and says that no more come. Where memory runs out, the board
/// has the first jobs of the text.
pub(crate) fn read_sum<R: Wait>(
    rt: &R,
    alloc: Global,
    service: &Service,
    number: u64,
    adder: &mut Adder,
) -> Result<(), AllocError>
    requires adder { IsAdder service.now.lock adder.old }
    requires new { IsNew (progress_by service.now.lock adder.old) }
    ensures adder { IsAdder service.now.lock adder.new }
    ensures sum { ReadsSum number result (own_of service.now.lock adder.new.pass) }
{
    let added = add_sum(rt, alloc, service, number, adder);
    adder.close_input(rt, service);
    added
}

// Adds the jobs of the number's text.
fn add_sum<R: Wait>(
    rt: &R,
    alloc: Global,
    service: &Service,
    number: u64,
    adder: &mut Adder,
) -> Result<(), AllocError>
    requires adder { IsAdder service.now.lock adder.old }
    requires new { IsNew (progress_by service.now.lock adder.old) }
    ensures adder { IsAdder service.now.lock adder.new }
    ensures first { AsksFirst (reading_of number) (own_of service.now.lock adder.new.pass) }
    ensures all { OnOk result (queries_on (own_of service.now.lock adder.new.pass)
        ≡ queries_in (printed (generated number)) true) }
    ensures accepted { OnOk result (wrong (printed (generated number)) true ≡ None) }
{
    match make(alloc, number) {
        Ok(text) => add_text(rt, alloc, service, &text, adder),
        Err(refused) => Err(refused),
    }
}

// Adds the jobs of a whole text.
fn add_text<R: Wait>(
    rt: &R,
    alloc: Global,
    service: &Service,
    text: &[u8],
    adder: &mut Adder,
) -> Result<(), AllocError>
    requires adder { IsAdder service.now.lock adder.old }
    requires new { IsNew (progress_by service.now.lock adder.old) }
    ensures adder { IsAdder service.now.lock adder.new }
    ensures first { AsksFirst (record { bytes = text.now; ended = true; failed = false })
        (own_of service.now.lock adder.new.pass) }
    ensures all { OnOk result (queries_on (own_of service.now.lock adder.new.pass)
        ≡ queries_in text.now true) }
{
    let mut reader = Reader::new(alloc);
    let fed = reader.feed(text)?;
    let rest = reader.finish()?;
    adder.add_all(rt, service, fed.statements.into_items())?;
    adder.add_all(rt, service, rest.statements.into_items())
}

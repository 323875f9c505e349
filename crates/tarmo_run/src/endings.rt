//! How a run ends.

ghost use Rattle.std.specs.Prelude.{◌≡◌, ◌++◌, ◌⊎◌, ℕ, if◌then◌else◌, take, IfOk, OnErr, OnOk};
ghost use Rattle.std.specs.Prelude.{MatchResult, codes};
ghost use Rattle.std.specs.Fmt.{decimal};
ghost use Rattle.entry_core.specs.Journal.{jobs};
ghost use Rattle.entry_core.specs.Settled.{settled};
ghost use Rattle.board_core.specs.Replies.{IsJob};
ghost use Rattle.run_io.specs.Bytes.{appended};
ghost use Rattle.run_io.specs.Fault.{HasCause};
ghost use Rattle.tarmo_run.specs.Output.{is_one_so, is_undecided, lacking, lacks_by, last_line_of};
ghost use Rattle.icnf_text.specs.Reasons.{reason_text};
ghost use Rattle.tarmo_run.specs.Output.{status_of};
ghost use Rattle.tarmo_run.specs.Ended.{TookFrontOfLine};
ghost use Rattle.tarmo_run.specs.declared.endings.Ending.TheVariants as endings;

use board_core::Board;
use entry_core::Outcome;
use icnf_text::Fault;
use line_tokens::print_number;
use run_io::{Failed, Sink, write_all};
use std::alloc::{AllocError, Global};

/// The status of a run in which memory ran out.
pub const NO_MEMORY: u8 = 6;

/// The status of a run that gave up a job, or in which one was cancelled.
pub const UNDECIDED: u8 = 1;

/// How a run ends whose sink takes all that it writes.
#[derive(Clone, Copy, Debug, PartialEq, Eq)]
pub enum Ending {
    /// The text was read to its end, and each of its jobs has its block; there are so many.
    Complete(u64),
    /// The text has a wrong place.
    Refused(Fault),
    /// The source failed.
    Unread,
    /// Memory ran out.
    Exhausted,
}

impl Ending {
    /// The status of such a run over the board: 6 where a job found no memory; else that of the
    /// ending, which is 1 instead of 0 where a job was given up or cancelled.
    pub(crate) fn status(self, board: &Board) -> u8
        ensures { result ≡ status_of self board.now }
    {
        if is_one_without(board, Lack::Memory) {
            return NO_MEMORY;
        }
        match self {
            Ending::Complete(_) => complete_status(board),
            Ending::Refused(_) => 2,
            Ending::Unread => 3,
            Ending::Exhausted => NO_MEMORY,
        }
    }

    /// Writes the last line, or `memory` where there is no memory for a line with a number, and
    /// flushes. Answers the ending that the line tells.
    pub(crate) fn close<O: Sink>(self, alloc: Global, out: &mut O) -> Result<Ending, Failed>
        ensures told { IfOk result (λ told. ((told ≡ self) ⊎ (told ≡ endings.Exhausted))
            × (O.taken out.new ≡ appended (O.taken out.old) (last_line_of told))) }
        ensures front { OnErr result (TookFrontOfLine self (O.taken out.old) (O.taken out.new)) }
        ensures cause { HasCause (O.faults out.old) (O.faults out.new) result }
    {
        match self {
            Ending::Complete(jobs) => self.close_with(end_line(alloc, jobs), out),
            Ending::Refused(fault) => self.close_with(refused_line(alloc, fault), out),
            Ending::Unread => {
                write_last(out, b"fault read\n")?;
                Ok(Ending::Unread)
            }
            Ending::Exhausted => close_without_memory(out),
        }
    }

    // Writes this line, where there was memory for it.
    fn close_with<O: Sink>(
        self,
        line: Result<Vec<u8>, AllocError>,
        out: &mut O,
    ) -> Result<Ending, Failed>
        requires { IfOk line (λ line. line.items ≡ last_line_of self) }
        ensures told { IfOk result (λ told. ((told ≡ self) ⊎ (told ≡ endings.Exhausted))
            × (O.taken out.new ≡ appended (O.taken out.old) (last_line_of told))) }
        ensures front { OnErr result (TookFrontOfLine self (O.taken out.old) (O.taken out.new)) }
        ensures cause { HasCause (O.faults out.old) (O.faults out.new) result }
    {
        match line {
            Ok(line) => {
                write_last(out, &line)?;
                Ok(self)
            }
            Err(_) => close_without_memory(out),
        }
    }
}

// The status of a run that answered its whole text.
fn complete_status(board: &Board) -> u8
    ensures { result
        ≡ (if is_one_so is_undecided board.now (jobs board.now.journal) then 1 else 0) }
{
    if is_one_without(board, Lack::Decision) {
        UNDECIDED
    } else {
        0
    }
}

/// What a job may be left without.
#[derive(Clone, Copy, Debug, PartialEq, Eq)]
pub(crate) enum Lack {
    /// Memory: an attempt at the job found none.
    Memory,
    /// An answer: the job was given up or cancelled.
    Decision,
}

impl Lack {
    fn is_in(self, outcome: Outcome) -> bool
        ensures { result ≡ lacks_by self outcome }
    {
        match self {
            Lack::Memory => matches!(outcome, Outcome::Starved),
            Lack::Decision => matches!(outcome, Outcome::Spent | Outcome::Cancelled(_)),
        }
    }
}

// Whether one of the jobs was left without that.
fn is_one_without(board: &Board, lack: Lack) -> bool
    ensures { result ≡ is_one_so (lacking lack) board.now (jobs board.now.journal) }
{
    let jobs = board.jobs();
    let mut job = 0;
    while job < jobs {
        job += 1;
        if is_without(board, job, lack) {
            return true;
        }
    }
    false
}

fn is_without(board: &Board, job: u32, lack: Lack) -> bool
    requires { IsJob board.now job }
    ensures { result ≡ lacking lack (settled board.now.rules board.now.journal job) }
{
    match board.outcome(job) {
        Ok(outcome) => lack.is_in(outcome),
        Err(_) => false,
    }
}

/// Writes `memory` as the last line, and flushes.
pub(crate) fn close_without_memory<O: Sink>(out: &mut O) -> Result<Ending, Failed>
    ensures told { IfOk result (λ told. (told ≡ endings.Exhausted)
        × (O.taken out.new ≡ appended (O.taken out.old) (last_line_of told))) }
    ensures front { OnErr result ((size : ℕ) × (O.taken out.new
        ≡ appended (O.taken out.old) (take size (last_line_of endings.Exhausted)))) }
    ensures cause { HasCause (O.faults out.old) (O.faults out.new) result }
{
    write_last(out, b"memory\n")?;
    Ok(Ending::Exhausted)
}

fn end_line(alloc: Global, jobs: u64) -> Result<Vec<u8>, AllocError>
    ensures { IfOk result (λ line. line.items ≡ codes "end " ++ decimal jobs ++ codes "\n") }
{
    let mut line = Vec::new(alloc);
    line.extend_from_slice(b"end ")?;
    print_number(&mut line, jobs)?;
    line.extend_from_slice(b"\n")?;
    Ok(line)
}

fn refused_line(alloc: Global, fault: Fault) -> Result<Vec<u8>, AllocError>
    ensures { IfOk result (λ line. line.items ≡ codes "refused " ++ decimal fault.line
        ++ codes " " ++ reason_text fault.reason ++ codes "\n") }
{
    let mut line = Vec::new(alloc);
    line.extend_from_slice(b"refused ")?;
    print_number(&mut line, fault.line)?;
    line.extend_from_slice(b" ")?;
    line.extend_from_slice(fault.reason.text())?;
    line.extend_from_slice(b"\n")?;
    Ok(line)
}

// Writes the line as one piece, and flushes.
fn write_last<O: Sink>(out: &mut O, line: &[u8]) -> Result<(), Failed>
    ensures whole { OnOk result (O.taken out.new ≡ appended (O.taken out.old) line.now) }
    ensures front { OnErr result ((size : ℕ)
        × (O.taken out.new ≡ appended (O.taken out.old) (take size line.now))) }
    ensures cause { HasCause (O.faults out.old) (O.faults out.new) result }
{
    write_all(out, line)?;
    out.flush()
}

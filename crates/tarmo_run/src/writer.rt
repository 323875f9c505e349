//! The blocks of the jobs of a board that are settled.

ghost use Rattle.std.specs.Prelude.{◌≡◌, ◌+◌, ◌≤◌, None, length, MatchResult, IfOk, IfSome, OnOk};
ghost use Rattle.std.specs.Arc.{arc_value};
ghost use Rattle.entry_core.specs.Journal.{inputs_of, jobs};
ghost use Rattle.board_core.specs.State.{State};
ghost use Rattle.tarmo_run.specs.Block.{IsBlockOf};
ghost use Rattle.tarmo_run.specs.Output.{AreSettled};
ghost use Rattle.tarmo_run.specs.Stop.{IsHalt};
ghost use Rattle.tarmo_run.specs.Variables.{AreWithinVariables};
ghost use Rattle.tarmo_run.specs.Writer.{HasCounted, IsDue, Writes, WritesUntil};

use crate::client::verdict_of;
use board_core::Board;
use entry_core::{Segment, Verdict, verdicts_have_causes};
use run_io::{Failed, Sink, write_all};
use sat_base::Clause;
use std::alloc::{AllocError, Global};
use std::sync::Arc;
use verdict_text::block;

/// Why writing the blocks of jobs stopped.
#[derive(Clone, Copy, Debug, PartialEq, Eq)]
pub(crate) enum Halt {
    /// The sink failed.
    Unwritten,
    /// Memory ran out.
    Memory,
}

impl From<AllocError> for Halt {
    ghost use Rattle.std.specs.Prelude.{◌≡◌};
    ghost use Rattle.tarmo_run.specs.declared.writer.Halt.TheVariants as halt;

    ghost from_gives = { λ _ e. e ≡ halt.Memory };

    fn from(_: AllocError) -> Halt {
        Halt::Memory
    }
}

/// How many jobs have their blocks, and how many clauses the last of them has.
#[derive(Drop)]
pub(crate) struct Writer {
    alloc: Global,
    pub(crate) written: u32,
    inputs: u64,
}

/// A settled job that is due for its block: what was added with it, and its verdict.
#[derive(Drop)]
pub(crate) struct Due {
    pub(crate) job: u32,
    pub(crate) segment: Arc<Segment>,
    pub(crate) verdict: Verdict,
}

// The block of a job as text, and how many clauses the job has.
#[derive(Drop)]
struct Printed {
    text: Vec<u8>,
    inputs: u64,
}

impl Writer {
    /// A writer that has written nothing.
    pub(crate) fn new(alloc: Global) -> Writer
        ensures written { result.written ≡ 0 }
        ensures inputs { result.inputs ≡ 0 }
    {
        Writer {
            alloc,
            written: 0,
            inputs: 0,
        }
    }

    /// Writes the blocks that are due, in order, each as a piece of its own: those of settled jobs,
    /// up to the first job that isn't settled.
    pub(crate) fn write_settled<O: Sink>(
        &mut self,
        board: &Board,
        trace: bool,
        out: &mut O,
    ) -> Result<(), Halt>
        requires counted { HasCounted self.old board.now }
        ensures counted { HasCounted self.new board.now }
        ensures wrote { MatchResult result
            (λ _. Writes trace board.now self.old self.new (O.taken out.old) (O.taken out.new))
            (λ halt. WritesUntil trace halt board.now self.old self.new
            (O.taken out.old) (O.taken out.new)) }
        ensures all { OnOk result
            (AreSettled board.now → self.new.written ≡ jobs board.now.journal) }
        ensures cause { MatchResult result
            (λ _. O.faults out.new ≡ O.faults out.old)
            (λ halt. IsHalt halt (O.faults out.old) (O.faults out.new)) }
    {
        while let Some(due) = self.next_due(board)? {
            self.write_block(trace, &due, out)?;
        }
        Ok(())
    }

    // The first job without a block, where it is there and settled.
    fn next_due(&self, board: &Board) -> Result<Option<Due>, AllocError>
        requires counted { HasCounted self.now board.now }
        ensures due { IfOk result (λ next. IfSome next (IsDue self.now board.now)) }
        ensures none { IfOk result (λ next. next ≡ None → AreSettled board.now →
            jobs board.now.journal ≤ self.now.written) }
    {
        if self.written >= board.jobs() {
            return Ok(None);
        }
        // A board tells that its journal is legal.
        let _ = board.journal();
        let job = self.written + 1;
        match verdict_of(board, job)? {
            Some(verdict) => {
                let segment = board.segment(job)?;
                Ok(Some(Due {
                    job,
                    segment,
                    verdict,
                }))
            }
            None => Ok(None),
        }
    }

    /// Writes the block of the first job without one.
    pub(crate) fn write_block<O: Sink>(
        &mut self,
        trace: bool,
        due: &Due,
        out: &mut O,
    ) -> Result<(), Halt>
        requires due { (board : State) × IsDue self.old board due.now }
        ensures counted { (board : State) → IsDue self.old board due.now →
            HasCounted self.new board }
        ensures wrote { (board : State) → IsDue self.old board due.now → MatchResult result
            (λ _. Writes trace board self.old self.new (O.taken out.old) (O.taken out.new))
            (λ halt. WritesUntil trace halt board self.old self.new
            (O.taken out.old) (O.taken out.new)) }
        ensures one { OnOk result (self.new.written ≡ self.old.written + 1) }
        ensures cause { MatchResult result
            (λ _. O.faults out.new ≡ O.faults out.old)
            (λ halt. IsHalt halt (O.faults out.old) (O.faults out.new)) }
    {
        let printed = self.print(trace, due)?;
        match write_all(out, &printed.text) {
            Ok(()) => {
                self.written = due.job;
                self.inputs = printed.inputs;
                Ok(())
            }
            Err(Failed) => Err(Halt::Unwritten),
        }
    }

    // The block of the first job without one.
    fn print(&self, trace: bool, due: &Due) -> Result<Printed, AllocError>
        requires due { (board : State) × IsDue self.now board due.now }
        ensures within { AreWithinVariables (arc_value due.now.segment).clauses }
        ensures inputs { IfOk result (λ printed. (board : State) → IsDue self.now board due.now →
            printed.inputs ≡ length (inputs_of board.journal due.now.job)) }
        ensures text { IfOk result (λ printed. (board : State) → IsDue self.now board due.now →
            IsBlockOf trace board due.now.job printed.text.items) }
    {
        // The journal is legal: it keeps the limit on clauses, and each verdict has its cause, so
        // that a model has the job's variables and a trace cites what stands before.
        verdicts_have_causes();
        let clauses = due.segment.clauses.items();
        look_at_each(clauses);
        // A cube is a set of literals, whose variables are within their limit.
        let _ = due.segment.cube.lits();
        let inputs = self.inputs + clauses.len() as u64;
        let text = block(self.alloc, due.job, &due.verdict, inputs, trace)?;
        Ok(Printed { text, inputs })
    }
}

// A clause is a set of literals, whose variables are within their limit: its literals tell.
fn look_at_each(clauses: &[Clause])
    ensures { AreWithinVariables clauses.now }
{
    for clause in clauses {
        let _ = clause.lits();
    }
}

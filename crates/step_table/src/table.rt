//! Steps in flat arrays.

ghost use Rattle.std.specs.Prelude.{◌≡◌, ℕ, ◌<◌, ◌≤◌, [], ◌∷◌, ◌++◌, length, take, slice_index_or};
ghost use Rattle.std.specs.Prelude.{IfOk, OnErr, OnOk};
ghost use Rattle.sat_base.specs.Lit.{IsLitSet};
ghost use Rattle.sat_base.specs.declared.origins.Ref.TheVariants.{Own};
ghost use Rattle.step_table.specs.Layout.{no_row};
ghost use Rattle.step_table.specs.Table.{step_at};

use crate::StepRef;
use crate::hints::HintTable;
use sat_base::{Lit, Ref};
use std::alloc::{AllocError, Global};
use std::marker::Model;
use std::mem::size_of;
use trace_core::Step;

// Where the literals and the hints of a step end, and its tag. They begin where those of the step
// before end.
#[derive(Clone, Copy, Debug)]
struct Row {
    lits_end: u32,
    hints_end: u32,
    tag: u32,
}

const _: () = prove!(size_of::<Row>() == 12);

const NO_ROW: Row = Row {
    lits_end: 0,
    hints_end: 0,
    tag: 0,
};

/// Steps in order, counted from 0. A step takes four bytes a literal, four a hint and twelve more,
/// and no block of memory of its own; a hint with large numbers takes sixteen bytes more. Contracts
/// see the list of the steps.
#[derive(Debug, Drop)]
pub struct Steps {
    lits: Vec<Lit>,
    hints: HintTable,
    rows: Vec<Row>,
}

impl Model for Steps {
    ghost use Rattle.std.specs.Prelude.{List};
    ghost use Rattle.trace_core.specs.declared.derivation.Step.{Step};

    ghost Value = { List Step };

    ghost use Rattle.step_table.specs.Layout.{steps_of, IsTable};

    ghost view = { steps_of };

    ghost invariant = { IsTable };
}

impl Steps {
    /// No steps. Takes no memory.
    pub fn new(alloc: Global) -> Steps
        ensures { result ≡ [] }
    {
        Steps {
            lits: Vec::new(alloc),
            hints: HintTable::new(alloc),
            rows: Vec::new(alloc),
        }
    }

    /// These steps.
    pub fn of(alloc: Global, steps: &[Step]) -> Result<Steps, AllocError>
        ensures { IfOk result (λ table. table ≡ steps.now) }
    {
        let mut table = Steps::new(alloc);
        for step in steps {
            table.push(step.clause.lits(), step.hints.items(), step.tag)?;
        }
        Ok(table)
    }

    /// How many steps there are.
    pub fn len(&self) -> usize
        ensures { result ≡ length self.now }
    {
        self.rows.len()
    }

    /// Adds a step behind the others, with its literals in ascending order. A table that would have
    /// more than 4,294,967,295 literals or hints is answered as want of memory. Where memory is
    /// refused all stays as it was.
    pub fn push(&mut self, lits: &[Lit], hints: &[Ref], tag: u32) -> Result<(), AllocError>
        requires { IsLitSet lits.now }
        ensures ok { OnOk result (self.new
            ≡ self.old ++ record { clause = lits.now; hints = hints.now; tag = tag } ∷ []) }
        ensures err { OnErr result (self.new ≡ self.old) }
    {
        let lits_end = self.lits.len() + lits.len();
        let hints_end = self.hints.len() + hints.len();
        if lits_end > u32::MAX as usize || hints_end > u32::MAX as usize {
            return Err(AllocError);
        }
        // First the room: what comes behind the hints then finds its memory.
        self.rows.reserve(1)?;
        self.lits.reserve(lits.len())?;
        self.hints.extend(hints)?;
        self.lits.extend_from_slice(lits)?;
        self.rows.push_reserved(Row {
            lits_end: lits_end as u32,
            hints_end: hints_end as u32,
            tag,
        });
        Ok(())
    }

    /// The step at a place, counted from 0.
    pub fn step(&self, index: usize) -> StepRef<'_>
        requires { index < length self.now }
        ensures { result ≡ step_at self.now index }
    {
        StepRef::new(self, index)
    }

    /// Takes back the steps behind the first `len`. Where there are no more than that, nothing
    /// changes. Takes no memory.
    pub fn truncate(&mut self, len: usize)
        ensures { self.new ≡ take len self.old }
    {
        if len >= self.rows.len() {
            return;
        }
        let last = row_before(&self.rows, len);
        self.lits.truncate(last.lits_end as usize);
        self.hints.truncate(last.hints_end as usize);
        self.rows.truncate(len);
    }

    /// Equal steps, in no more memory than they need.
    pub fn copy(&self, alloc: Global) -> Result<Steps, AllocError>
        ensures { IfOk result (λ copy. copy ≡ self.now) }
    {
        Ok(Steps {
            lits: Vec::from_slice(alloc, &self.lits)?,
            hints: self.hints.copy(alloc)?,
            rows: Vec::from_slice(alloc, &self.rows)?,
        })
    }

    // The literals of a step's clause.
    pub(crate) fn lits(&self, index: usize) -> &[Lit]
        requires { index < length self.now }
        ensures value { result.now ≡ (step_at self.now index).clause }
        ensures set { IsLitSet result.now }
    {
        let start = row_before(&self.rows, index).lits_end as usize;
        let end = self.rows[index].lits_end as usize;
        &self.lits[start..end]
    }

    // How many hints a step has.
    pub(crate) fn count_hints(&self, index: usize) -> usize
        requires { index < length self.now }
        ensures { result ≡ length (step_at self.now index).hints }
    {
        let start = row_before(&self.rows, index).hints_end as usize;
        self.rows[index].hints_end as usize - start
    }

    // The hint of a step at a place.
    pub(crate) fn hint(&self, index: usize, place: usize) -> Ref
        requires step { index < length self.now }
        requires place { place < length (step_at self.now index).hints }
        ensures { result ≡ slice_index_or (step_at self.now index).hints place (Own 0) }
    {
        let start = row_before(&self.rows, index).hints_end as usize;
        self.hints.get(start + place)
    }

    // The tag of a step.
    pub(crate) fn tag(&self, index: usize) -> u32
        requires { index < length self.now }
        ensures { result ≡ (step_at self.now index).tag }
    {
        self.rows[index].tag
    }
}

// The row before the one at a place, or before the end.
fn row_before(rows: &[Row], place: usize) -> Row
    requires { place ≤ length rows.now }
    ensures { result ≡ slice_index_or (no_row ∷ rows.now) place no_row }
{
    if place == 0 { NO_ROW } else { rows[place - 1] }
}

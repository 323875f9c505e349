//! One step of a table.

ghost use Rattle.std.specs.Prelude.{◌≡◌, ℕ, ◌<◌, length, slice_index_or, IfOk};
ghost use Rattle.sat_base.specs.Lit.{IsLitSet};
ghost use Rattle.sat_base.specs.declared.origins.Ref.TheVariants.{Own};
ghost use Rattle.step_table.specs.Table.{step_at};

use crate::Steps;
use sat_base::{Clause, Lit, Ref};
use std::alloc::{AllocError, Global};
use std::marker::Model;

/// A step where it stands in its table. Contracts see the step.
#[derive(Debug, Drop)]
pub struct StepRef<'a> {
    steps: &'a Steps,
    index: usize,
}

impl<'a> Model for StepRef<'a> {
    ghost use Rattle.std.specs.Prelude.{◌<◌, length};
    ghost use Rattle.trace_core.specs.declared.derivation.Step.{Step};
    ghost use Rattle.step_table.specs.Table.{step_at};

    ghost Value = { Step };

    ghost view = { λ step. step_at step.steps.now step.index };

    ghost invariant = { λ step. step.index < length step.steps.now };
}

impl<'a> StepRef<'a> {
    pub(crate) fn new(steps: &'a Steps, index: usize) -> StepRef<'a>
        requires { index < length steps.now }
        ensures { result ≡ step_at steps.now index }
    {
        StepRef { steps, index }
    }

    /// The literals of its clause, in ascending order.
    pub fn lits(&self) -> &'a [Lit]
        ensures value { result.now ≡ self.now.clause }
        ensures set { IsLitSet result.now }
    {
        self.steps.lits(self.index)
    }

    /// A copy of its clause.
    pub fn clause(&self, alloc: Global) -> Result<Clause, AllocError>
        ensures { IfOk result (λ clause. clause ≡ self.now.clause) }
    {
        let lits = Vec::from_slice(alloc, self.lits())?;
        Ok(Clause::of_ascending(lits))
    }

    /// How many hints it has.
    pub fn count_hints(&self) -> usize
        ensures { result ≡ length self.now.hints }
    {
        self.steps.count_hints(self.index)
    }

    /// The hint at a place, counted from 0.
    pub fn hint(&self, place: usize) -> Ref
        requires { place < length self.now.hints }
        ensures { result ≡ slice_index_or self.now.hints place (Own 0) }
    {
        self.steps.hint(self.index, place)
    }

    /// Its tag.
    pub fn tag(&self) -> u32
        ensures { result ≡ self.now.tag }
    {
        self.steps.tag(self.index)
    }
}

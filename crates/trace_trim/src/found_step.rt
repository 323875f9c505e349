//! A step where it stands.

ghost use Rattle.std.specs.Prelude.{◌≡◌, ◌<◌, length, slice_index_or, IfOk};
ghost use Rattle.sat_base.specs.declared.origins.Ref.TheVariants.{Own};
ghost use Rattle.step_table.specs.Table.{step_at};

use sat_base::{Clause, Ref};
use std::alloc::{AllocError, Global};
use std::marker::Model;
use step_table::{StepRef, Steps};
use trace_core::Step;

#[derive(Debug, Drop)]
enum Place<'a> {
    Own(StepRef<'a>),
    Packet(&'a Step),
}

/// An own step or a step of a packet. Contracts see the step.
#[derive(Debug, Drop)]
pub(crate) struct FoundStep<'a> {
    place: Place<'a>,
}

impl<'a> Model for FoundStep<'a> {
    ghost use Rattle.trace_core.specs.declared.derivation.Step.{Step};
    ghost use Rattle.trace_trim.specs.Place.{step_in};

    ghost Value = { Step };

    ghost view = { λ found. step_in found.place };
}

impl<'a> FoundStep<'a> {
    /// The own step at a place, counted from 0.
    pub(crate) fn own(steps: &'a Steps, index: usize) -> FoundStep<'a>
        requires { index < length steps.now }
        ensures { result ≡ step_at steps.now index }
    {
        FoundStep {
            place: Place::Own(steps.step(index)),
        }
    }

    /// A step of a packet.
    pub(crate) fn of_packet(step: &'a Step) -> FoundStep<'a>
        ensures { result ≡ step.now }
    {
        FoundStep {
            place: Place::Packet(step),
        }
    }

    /// A copy of its clause.
    pub(crate) fn clause(&self, alloc: Global) -> Result<Clause, AllocError>
        ensures { IfOk result (λ clause. clause ≡ self.now.clause) }
    {
        match &self.place {
            Place::Own(step) => step.clause(alloc),
            Place::Packet(step) => step.clause.copy(alloc),
        }
    }

    /// How many hints it has.
    pub(crate) fn count_hints(&self) -> usize
        ensures { result ≡ length self.now.hints }
    {
        match &self.place {
            Place::Own(step) => step.count_hints(),
            Place::Packet(step) => step.hints.items().len(),
        }
    }

    /// The hint at a place, counted from 0.
    pub(crate) fn hint(&self, place: usize) -> Ref
        requires { place < length self.now.hints }
        ensures { result ≡ slice_index_or self.now.hints place (Own 0) }
    {
        match &self.place {
            Place::Own(step) => step.hint(place),
            Place::Packet(step) => step.hints.items()[place],
        }
    }

    /// Its tag.
    pub(crate) fn tag(&self) -> u32
        ensures { result ≡ self.now.tag }
    {
        match &self.place {
            Place::Own(step) => step.tag(),
            Place::Packet(step) => step.tag,
        }
    }
}

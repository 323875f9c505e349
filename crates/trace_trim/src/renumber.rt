//! Steps with numbers of their own.

ghost use Rattle.std.specs.Prelude.{◌≡◌, Some, IfOk, AllPairs, Contains};
ghost use Rattle.std.specs.List.{AllZip};
ghost use Rattle.sat_base.specs.declared.origins.Ref.{Ref};
ghost use Rattle.trace_core.specs.Known.{item_at};
ghost use Rattle.trace_trim.specs.Names.{AreCiting, IsBefore, cited};
ghost use Rattle.trace_trim.specs.Trimmed.{IsRenumberedHint, IsStepRenumbered};

use crate::found_step::FoundStep;
use crate::lookup::cited_by;
use sat_base::Ref;
use std::alloc::{AllocError, Global};
use trace_core::{Hints, Step};

/// The place, counted from 1, of a name among the names.
fn place_of(names: &[Ref], name: Ref) -> u64
    requires ascending { AllPairs IsBefore names.now }
    requires there { Contains names.now name }
    ensures { item_at names.now result ≡ Some name }
{
    match names.binary_search(&name) {
        Ok(index) => index as u64 + 1,
        Err(_) => unreachable!(),
    }
}

/// A hint of the step of that name, renumbered.
fn renumbered_hint(names: &[Ref], user: Ref, hint: Ref) -> Ref
    requires ascending { AllPairs IsBefore names.now }
    requires there { (name : Ref) → cited user hint ≡ Some name → Contains names.now name }
    ensures { IsRenumberedHint names.now user hint result }
{
    match cited_by(user, hint) {
        None => hint,
        Some(name) => Ref::Own(place_of(names, name)),
    }
}

/// The hints of the step of that name, renumbered.
fn renumbered_hints(
    alloc: Global,
    names: &[Ref],
    user: Ref,
    step: &FoundStep<'_>,
) -> Result<Vec<Ref>, AllocError>
    requires ascending { AllPairs IsBefore names.now }
    requires there { (name : Ref) → AreCiting user step.now.hints name → Contains names.now name }
    ensures { IfOk result
        (λ renumbered. AllZip (IsRenumberedHint names.now user) step.now.hints renumbered.items) }
{
    let mut renumbered = Vec::with_capacity(alloc, step.count_hints())?;
    for place in 0..step.count_hints() {
        renumbered.push(renumbered_hint(names, user, step.hint(place)))?;
    }
    Ok(renumbered)
}

/// The step of that name with its hints renumbered.
pub(crate) fn renumbered_step(
    alloc: Global,
    names: &[Ref],
    user: Ref,
    step: &FoundStep<'_>,
) -> Result<Step, AllocError>
    requires ascending { AllPairs IsBefore names.now }
    requires there { (name : Ref) → AreCiting user step.now.hints name → Contains names.now name }
    ensures { IfOk result (IsStepRenumbered names.now user step.now) }
{
    let hints = renumbered_hints(alloc, names, user, step)?;
    with_hints(alloc, step, hints)
}

/// The step with these hints in place of its own.
pub(crate) fn with_hints(
    alloc: Global,
    step: &FoundStep<'_>,
    hints: Vec<Ref>,
) -> Result<Step, AllocError>
    ensures { IfOk result (λ new. new ≡ record step.now { hints = hints.items }) }
{
    Ok(Step {
        clause: step.clause(alloc)?,
        hints: Hints::of(hints),
        tag: step.tag(),
    })
}

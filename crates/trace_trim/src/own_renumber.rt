//! Own steps as the packet has them.

ghost use Rattle.std.specs.Prelude.{◌≡◌, ℕ, ◌<◌, Some, IfOk, AllPairs, Contains};
ghost use Rattle.std.specs.List.{AllZip};
ghost use Rattle.sat_base.specs.declared.origins.Ref.{Ref};
ghost use Rattle.trace_core.specs.Known.{item_at};
ghost use Rattle.trace_trim.specs.Packed as packed;
ghost use Rattle.trace_trim.specs.Packed.{IsPackedHint};
ghost use Rattle.trace_trim.specs.Reached.{LeadTo};
ghost use Rattle.trace_trim.specs.Trimmed.{IsStepWithHints};

use crate::found_step::FoundStep;
use crate::lookup::name_of;
use crate::renumber::with_hints;
use sat_base::Ref;
use std::alloc::{AllocError, Global};
use trace_core::Step;

/// The place, counted from 1, of a number among the numbers.
fn place_among(numbers: &[u64], number: u64) -> u64
    requires ascending { AllPairs (λ m n. m < n) numbers.now }
    requires there { Contains numbers.now number }
    ensures { item_at numbers.now result ≡ Some number }
{
    match numbers.binary_search(&number) {
        Ok(index) => index as u64 + 1,
        Err(_) => unreachable!(),
    }
}

/// A hint of an own step, as the packet of the steps of these numbers has it.
fn packed_hint(names: &[Option<Ref>], numbers: &[u64], hint: Ref) -> Ref
    requires ascending { AllPairs (λ m n. m < n) numbers.now }
    requires there { (number : ℕ) → packed.unnamed names.now hint ≡ Some number
        → Contains numbers.now number }
    ensures { IsPackedHint names.now numbers.now hint result }
{
    match hint {
        Ref::Own(number) => match name_of(names, number) {
            Some(name) => name,
            None => Ref::Own(place_among(numbers, number)),
        },
        _ => hint,
    }
}

/// The hints of an own step, as the packet of the steps of these numbers has them.
fn packed_hints(
    alloc: Global,
    names: &[Option<Ref>],
    numbers: &[u64],
    step: &FoundStep<'_>,
) -> Result<Vec<Ref>, AllocError>
    requires ascending { AllPairs (λ m n. m < n) numbers.now }
    requires there { (number : ℕ) → LeadTo (packed.unnamed names.now) step.now.hints number
        → Contains numbers.now number }
    ensures { IfOk result (λ renumbered. AllZip (IsPackedHint names.now numbers.now)
        step.now.hints renumbered.items) }
{
    let mut renumbered = Vec::with_capacity(alloc, step.count_hints())?;
    for place in 0..step.count_hints() {
        renumbered.push(packed_hint(names, numbers, step.hint(place)))?;
    }
    Ok(renumbered)
}

/// An own step, as the packet of the steps of these numbers has it.
pub(crate) fn packed_step(
    alloc: Global,
    names: &[Option<Ref>],
    numbers: &[u64],
    step: &FoundStep<'_>,
) -> Result<Step, AllocError>
    requires ascending { AllPairs (λ m n. m < n) numbers.now }
    requires there { (number : ℕ) → LeadTo (packed.unnamed names.now) step.now.hints number
        → Contains numbers.now number }
    ensures { IfOk result (IsStepWithHints (IsPackedHint names.now numbers.now) step.now) }
{
    let hints = packed_hints(alloc, names, numbers, step)?;
    with_hints(alloc, step, hints)
}

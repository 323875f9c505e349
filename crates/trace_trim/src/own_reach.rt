//! The own steps that are reached over steps without a name.

ghost use Rattle.std.specs.Prelude.{ℕ, ◌↔◌, ◌⊎◌, IsSome, OnOk, IfOk, Contains};
ghost use Rattle.sat_base.specs.declared.origins.Ref.{Ref};
ghost use Rattle.trace_core.specs.Known.{item_at};
ghost use Rattle.trace_trim.specs.Packed as packed;
ghost use Rattle.trace_trim.specs.Packed.{AreNumbersPacked, CiteEarlierOwn};
ghost use Rattle.trace_trim.specs.Reached.{LeadTo};

use crate::found_step::FoundStep;
use crate::lookup::{own_step, unnamed};
use sat_base::Ref;
use std::alloc::{AllocError, Global};
use std::collections::BTreeSet;
use step_table::Steps;

/// The numbers of the own steps that `pack` puts into the packet of own step `last`, ascending: it,
/// and those without a name that it rests on.
pub fn packed_numbers(
    alloc: Global,
    own: &Steps,
    names: &[Option<Ref>],
    last: u64,
) -> Result<Vec<u64>, AllocError>
    requires last { IsSome (item_at own.now last) }
    requires earlier { CiteEarlierOwn own.now }
    ensures { IfOk result (λ numbers. AreNumbersPacked own.now names.now last numbers.items) }
{
    let mut numbers = Vec::new(alloc);
    let mut pending = BTreeSet::new(alloc);
    numbers.push(last)?;
    let first = own_step(own, last);
    add_unnamed(&mut pending, names, &first)?;
    while let Some(number) = pending.pop_last() {
        numbers.push(number)?;
        let step = own_step(own, number);
        add_unnamed(&mut pending, names, &step)?;
    }
    numbers.reverse();
    Ok(numbers)
}

/// Adds the numbers of the own steps without a name that the step's hints name.
fn add_unnamed(
    pending: &mut BTreeSet<u64>,
    names: &[Option<Ref>],
    step: &FoundStep<'_>,
) -> Result<(), AllocError>
    ensures { OnOk result
        ((number : ℕ)
        → Contains pending.new.keys number
        ↔ (Contains pending.old.keys number
        ⊎ LeadTo (packed.unnamed names.now) step.now.hints number)) }
{
    for place in 0..step.count_hints() {
        if let Some(number) = unnamed(names, step.hint(place)) {
            pending.insert(number)?;
        }
    }
    Ok(())
}

//! The steps that are reached over hints.

ghost use Rattle.std.specs.Prelude.{◌≡◌, ◌↔◌, ◌⊎◌, map, IsSome, OnOk, IfOk, Contains};
ghost use Rattle.std.specs.Arc.{arc_value};
ghost use Rattle.sat_base.specs.declared.origins.Ref.{Ref};
ghost use Rattle.trace_core.specs.Known.{item_at};
ghost use Rattle.trace_trim.specs.Names.{AreCiting, CiteEarlierSteps};
ghost use Rattle.trace_trim.specs.Trimmed.{AreNamesReached};

use crate::found_step::FoundStep;
use crate::lookup::{cited_by, step_of};
use sat_base::Ref;
use std::alloc::{AllocError, Global};
use std::collections::BTreeSet;
use std::sync::Arc;
use step_table::Steps;
use trace_core::Packet;

/// The names of the steps that own step `last` rests on, each after those that its hints name.
pub(crate) fn reached_from(
    alloc: Global,
    packets: &[Arc<Packet>],
    own: &Steps,
    last: u64,
) -> Result<Vec<Ref>, AllocError>
    requires last { IsSome (item_at own.now last) }
    requires earlier { CiteEarlierSteps (map arc_value packets.now) own.now }
    ensures { IfOk result
        (λ names. AreNamesReached (map arc_value packets.now) own.now last names.items) }
{
    let mut names = Vec::new(alloc);
    let mut pending = BTreeSet::new(alloc);
    names.push(Ref::Own(last))?;
    let first = step_of(packets, own, Ref::Own(last));
    add_cited(&mut pending, Ref::Own(last), &first)?;
    while let Some(name) = pending.pop_last() {
        names.push(name)?;
        let step = step_of(packets, own, name);
        add_cited(&mut pending, name, &step)?;
    }
    names.reverse();
    Ok(names)
}

/// Adds the names of the steps that the hints of this step, which has that name, name.
fn add_cited(pending: &mut BTreeSet<Ref>, user: Ref, step: &FoundStep<'_>) -> Result<(), AllocError>
    ensures { OnOk result
        ((name : Ref)
        → Contains pending.new.keys name
        ↔ (Contains pending.old.keys name ⊎ AreCiting user step.now.hints name)) }
{
    for place in 0..step.count_hints() {
        if let Some(name) = cited_by(user, step.hint(place)) {
            pending.insert(name)?;
        }
    }
    Ok(())
}

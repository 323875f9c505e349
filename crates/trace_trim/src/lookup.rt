//! Steps by name and by number, and where hints lead to.

ghost use Rattle.std.specs.Prelude.{◌≡◌, map, Some, IsSome};
ghost use Rattle.std.specs.Arc.{arc_value};
ghost use Rattle.trace_core.specs.Known.{item_at};
ghost use Rattle.trace_trim.specs.Names.{step_named, cited};
ghost use Rattle.trace_trim.specs.Packed as packed;

use crate::found_step::FoundStep;
use sat_base::Ref;
use std::sync::Arc;
use step_table::Steps;
use trace_core::Packet;

/// The step of that name.
pub(crate) fn step_of<'a>(packets: &'a [Arc<Packet>], own: &'a Steps, name: Ref) -> FoundStep<'a>
    requires { IsSome (step_named (map arc_value packets.now) own.now name) }
    ensures { step_named (map arc_value packets.now) own.now name ≡ Some result }
{
    match name {
        Ref::Input(_) => unreachable!(),
        Ref::Shared { packet, step } => {
            let packet: &Packet = &packets[(packet - 1) as usize];
            FoundStep::of_packet(&packet.steps.items()[(step - 1) as usize])
        }
        Ref::Own(number) => own_step(own, number),
    }
}

/// The own step of that number, counted from 1.
pub(crate) fn own_step(own: &Steps, number: u64) -> FoundStep<'_>
    requires { IsSome (item_at own.now number) }
    ensures { item_at own.now number ≡ Some result }
{
    FoundStep::own(own, (number - 1) as usize)
}

/// The name of the step that a hint of the step of that name names, `None` where it names an input.
pub(crate) fn cited_by(user: Ref, hint: Ref) -> Option<Ref>
    ensures { result ≡ cited user hint }
{
    match (user, hint) {
        (_, Ref::Input(_)) => None,
        (Ref::Shared { packet, .. }, Ref::Own(step)) => Some(Ref::Shared { packet, step }),
        _ => Some(hint),
    }
}

/// The name of an own step in the shared database.
pub(crate) fn name_of(names: &[Option<Ref>], number: u64) -> Option<Ref>
    ensures { result ≡ packed.name_of names.now number }
{
    let index = number.checked_sub(1)?;
    names.get(index as usize).copied().flatten()
}

/// The own step that a hint names, where that step has no name in the shared database.
pub(crate) fn unnamed(names: &[Option<Ref>], hint: Ref) -> Option<u64>
    ensures { result ≡ packed.unnamed names.now hint }
{
    match hint {
        Ref::Own(number) if name_of(names, number).is_none() => Some(number),
        _ => None,
    }
}

//! What the layers above call.

ghost use Rattle.std.specs.Prelude.{map, IsSome, IfOk};
ghost use Rattle.std.specs.Arc.{arc_value};
ghost use Rattle.trace_core.specs.Known.{item_at};
ghost use Rattle.trace_trim.specs.Names.{CiteEarlierSteps};
ghost use Rattle.trace_trim.specs.Trimmed.{IsTrimmed, IsTraceWhereOk};

use crate::lookup::step_of;
use crate::reach::reached_from;
use crate::renumber::renumbered_step;
use std::alloc::{AllocError, Global};
use std::sync::Arc;
use step_table::Steps;
use trace_core::{Packet, Step};

/// The steps that own step `last`, counted from 1, rests on: exactly those that are reached from it
/// over hints, renumbered as one list of own steps in which hints look back. The last of them has
/// the clause of own step `last`. Where the given steps are ok over some inputs, they are a trace,
/// also over those inputs alone whose tag is at most that of own step `last`. Time and memory grow
/// with the steps that are reached and their hints, and not with all that were learnt.
pub fn trim(
    alloc: Global,
    packets: &[Arc<Packet>],
    own: &Steps,
    last: u64,
) -> Result<Vec<Step>, AllocError>
    requires last { IsSome (item_at own.now last) }
    requires earlier { CiteEarlierSteps (map arc_value packets.now) own.now }
    ensures reached { IfOk result
        (λ steps. IsTrimmed (map arc_value packets.now) own.now last steps.items) }
    ensures trace { IfOk result
        (λ steps. IsTraceWhereOk (map arc_value packets.now) own.now last steps.items) }
{
    let names = reached_from(alloc, packets, own, last)?;
    let mut steps = Vec::with_capacity(alloc, names.len())?;
    for name in &names {
        let step = step_of(packets, own, *name);
        steps.push(renumbered_step(alloc, &names, *name, &step)?)?;
    }
    Ok(steps)
}

//! What a solver publishes.

ghost use Rattle.std.specs.Prelude.{◌≡◌, map, IsSome, IfOk};
ghost use Rattle.trace_core.specs.Known.{item_at};
ghost use Rattle.trace_core.specs.Trace.{known_of};
ghost use Rattle.trace_trim.specs.Packed.{CiteEarlierOwn, IsPack, IsOkWhereOwnAreOk, ends_in};
ghost use Rattle.trace_trim.specs.Packed.{HasGreatestTagLast, AreOfOwn};

use crate::lookup::own_step;
use crate::own_reach::packed_numbers;
use crate::own_renumber::packed_step;
use sat_base::{Items, Ref};
use std::alloc::{AllocError, Global};
use step_table::Steps;
use trace_core::Packet;

/// The packet of own step `last`, counted from 1: that step, and those own steps that it rests on
/// and that have no name in the shared database, in their order and numbered anew. Item n - 1 of
/// `names` is the name of own step n there; a hint that names an own step with a name takes that
/// name. Time and memory grow with the steps of the packet and their hints, and not with all that
/// were learnt.
pub fn pack(
    alloc: Global,
    own: &Steps,
    names: &[Option<Ref>],
    last: u64,
) -> Result<Packet, AllocError>
    requires last { IsSome (item_at own.now last) }
    requires earlier { CiteEarlierOwn own.now }
    ensures pack { IfOk result (λ packet. IsPack own.now names.now last packet) }
    ensures ok { IfOk result (λ packet. IsOkWhereOwnAreOk own.now names.now packet) }
    ensures ends { IfOk result (λ packet. ends_in packet ≡ item_at (map known_of own.now) last) }
    ensures tags { IfOk result (λ packet. HasGreatestTagLast own.now packet) }
    ensures of_own { IfOk result (λ packet. AreOfOwn own.now packet) }
{
    let numbers = packed_numbers(alloc, own, names, last)?;
    let mut steps = Vec::with_capacity(alloc, numbers.len())?;
    for number in &numbers {
        let step = own_step(own, *number);
        steps.push(packed_step(alloc, names, &numbers, &step)?)?;
    }
    Ok(Packet {
        steps: Items::of(steps),
    })
}

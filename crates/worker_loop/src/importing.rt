//! Packets that wait.

ghost use Rattle.std.specs.Prelude.{◌≡◌, ◌≤◌, ◌<◌, ◌-◌, length, OnOk};
ghost use Rattle.trace_core.specs.Known.{tag_of};
ghost use Rattle.trace_trim.specs.Packed.{ends_in};
ghost use Rattle.worker_loop.specs.Fits.{KnowsOnlyRead, KnowsRead};
ghost use Rattle.worker_loop.specs.Importing.{AreTakable, HasImported, KnowsReadUpTo};

use crate::bench::Bench;
use std::alloc::AllocError;
use trace_core::Packet;

/// Imports each packet that was read whose tag is at most the job that is loaded, and whose place
/// the session doesn't know. It looks only at the places behind the known front. What it imported
/// before want of memory it keeps.
pub(crate) fn import_waiting(bench: &mut Bench) -> Result<(), AllocError>
    requires few { length bench.old.packets.items < 4294967296 }
    requires only { KnowsOnlyRead bench.old }
    requires takable { AreTakable bench.old }
    ensures imported { HasImported bench.old bench.new }
    ensures known { OnOk result (KnowsRead bench.new) }
{
    let count = bench.packets.len();
    let mut place = bench.session.known_front().min(count);
    while place < count {
        place += 1;
        import_one(bench, place as u32)?;
    }
    Ok(())
}

/// Imports the packet that was read from this place, if it waits.
fn import_one(bench: &mut Bench, place: u32) -> Result<(), AllocError>
    requires from_one { 1 ≤ place }
    requires read { place ≤ length bench.old.packets.items }
    requires only { KnowsOnlyRead bench.old }
    requires takable { AreTakable bench.old }
    ensures imported { HasImported bench.old bench.new }
    ensures known { OnOk result
        (KnowsReadUpTo bench.old (place - 1) → KnowsReadUpTo bench.new place) }
{
    if bench.session.knows(place) {
        return Ok(());
    }
    let packet = &bench.packets[place as usize - 1];
    if last_tag(packet) > bench.session.bound() {
        return Ok(());
    }
    bench.session.import(place, packet)
}

/// The number of the first job that the clause of the packet holds for.
fn last_tag(packet: &Packet) -> u32
    ensures { result ≡ tag_of (ends_in packet.now) }
{
    match packet.steps.items().last() {
        Some(step) => step.tag,
        None => 0,
    }
}

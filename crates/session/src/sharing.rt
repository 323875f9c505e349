//! Clauses of the shared database.

ghost use Rattle.std.specs.Prelude.{◌≡◌, ◌≤◌, None, Some, map, length, OnOk, OnErr};
ghost use Rattle.std.specs.Arc.{arc_value};
ghost use Rattle.sat_base.specs.Lit.{greatest_of};
ghost use Rattle.trace_core.specs.Known.{Known, item_at};
ghost use Rattle.trace_core.specs.Trace.{known_of};
ghost use Rattle.session.specs.Solver.{packet_at};
ghost use Rattle.session.specs.Searching.{IsSearching, packets_of, solver_of};
ghost use Rattle.session.specs.Sharing.{IsTakable, HasTaken, IsHeld, Knows, HasPlacesOnly};
ghost use Rattle.session.specs.Sharing.{HoldsLast};

use crate::search::Search;
use sat_base::Ref;
use std::alloc::AllocError;
use std::sync::Arc;
use trace_core::Packet;

/// Takes in the last clause of the packet of this place, and knows the place from now on. After
/// want of memory the solver is as before.
pub(crate) fn take_in(
    search: &mut Search,
    place: u32,
    packet: &Arc<Packet>,
) -> Result<(), AllocError>
    requires kept { IsSearching search.old }
    requires zero { search.old.trail.depth ≡ 0 }
    requires place { 1 ≤ place }
    requires unknown { packet_at (packets_of search.old) place ≡ None }
    requires takable { (one : Known) × IsTakable (solver_of search.old) (arc_value packet.now) one }
    ensures kept { IsSearching search.new }
    ensures zero { search.new.trail.depth ≡ 0 }
    ensures ok { OnOk result ((one : Known) × HasTaken (solver_of search.old)
        (solver_of search.new) place (arc_value packet.now) one) }
    ensures err { OnErr result (solver_of search.new ≡ solver_of search.old) }
{
    let copy = packet.clone()?;
    let before = search.packets.len();
    match hold_last(search, place, packet) {
        Ok(()) => {
            search.packets.mark(place, copy);
            Ok(())
        }
        Err(error) => {
            search.packets.truncate(before);
            Err(error)
        }
    }
}

/// Knows the place from now on, whose packet's last clause is held already. After want of memory
/// the solver is as before.
pub(crate) fn know(search: &mut Search, place: u32, packet: &Arc<Packet>) -> Result<(), AllocError>
    requires kept { IsSearching search.old }
    requires place { 1 ≤ place }
    requires unknown { packet_at (packets_of search.old) place ≡ None }
    requires held { IsHeld (solver_of search.old) (arc_value packet.now) }
    ensures kept { IsSearching search.new }
    ensures depth { search.new.trail.depth ≡ search.old.trail.depth }
    ensures ok { OnOk result (Knows (solver_of search.old) (solver_of search.new) place
        (arc_value packet.now)) }
    ensures err { OnErr result (solver_of search.new ≡ solver_of search.old) }
{
    let copy = packet.clone()?;
    let before = search.packets.len();
    match search.packets.reach(place as usize) {
        Ok(()) => {
            search.packets.mark(place, copy);
            Ok(())
        }
        Err(error) => {
            search.packets.truncate(before);
            Err(error)
        }
    }
}

// Makes room for the place, and holds the packet's last clause under its name.
fn hold_last(search: &mut Search, place: u32, packet: &Packet) -> Result<(), AllocError>
    requires within { (one : Known) → item_at (map known_of packet.now) (length packet.now)
        ≡ Some one → greatest_of one.clause ≤ search.old.store.vars }
    ensures parts { search.new ≡ record search.old {
      store = search.new.store;
      packets = search.new.packets;
    } }
    ensures places { HasPlacesOnly search.old search.new }
    ensures reached { OnOk result (place ≤ length search.new.packets) }
    ensures held { OnOk result (HoldsLast search.old search.new place packet.now) }
    ensures err { OnErr result (search.new.store ≡ search.old.store) }
{
    search.packets.reach(place as usize)?;
    let steps = packet.steps.items();
    let step = &steps[steps.len() - 1];
    // Brings that the literals of the clause are a set in order.
    let _ = step.clause.lits();
    let name = Ref::Shared {
        packet: place,
        step: steps.len() as u64,
    };
    search.store.add(&step.clause, step.tag, name)?;
    Ok(())
}

//! Which first places of the shared database are known.

ghost use Rattle.std.specs.Prelude.{IfOk};
ghost use Rattle.std.specs.Arc.{arc_value};
ghost use Rattle.trace_core.specs.Known.{Known};
ghost use Rattle.session.specs.Sharing.{IsTakable};

use super::{cube, forcing, packet_of_2, start};
use crate::Session;
use std::alloc::AllocError;
use std::process::Abort;
use std::sync::Arc;
use std::test::Fail;
use trace_core::Packet;

// Takes the packet in at a place that isn't known, and answers how many first places are then.
fn take_at(
    rt: &impl Abort,
    session: &mut Session,
    place: u32,
    packet: &Arc<Packet>,
) -> Result<usize, AllocError>
    requires { (one : Known) × IsTakable session.old.solver (arc_value packet.now) one }
    ensures { IfOk result (λ _. (one : Known)
        × IsTakable session.new.solver (arc_value packet.now) one) }
{
    assert!(rt; place > 0);
    assert!(rt; !session.knows(place));
    session.import(place, packet)?;
    Ok(session.known_front())
}

#[test]
fn a_place_is_passed_once_those_before_it_are_known(rt: HostRuntime) -> Result<(), Fail> {
    let alloc = rt.alloc();
    let clauses = forcing(alloc, &rt)?;
    let packet = packet_of_2(alloc, &rt)?;
    let free = cube(alloc, &rt, &[])?;
    let mut session = start(alloc, &rt, &clauses, &free)?;
    assert_eq!(rt; session.known_front(), 0);
    let front = take_at(&rt, &mut session, 2, &packet)?;
    assert_eq!(rt; front, 0);
    let front = take_at(&rt, &mut session, 1, &packet)?;
    assert_eq!(rt; front, 2);
    let front = take_at(&rt, &mut session, 3, &packet)?;
    assert_eq!(rt; front, 3);
    Ok(())
}

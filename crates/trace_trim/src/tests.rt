//! The rows of the calls.

ghost use Rattle.std.specs.Prelude.{◌≡◌, ◌≤◌, length, IfOk};
ghost use Rattle.trace_trim.specs.Packed.{CiteEarlierOwn};

use crate::{pack, trim};
use sat_base::Ref::{Input, Own, Shared};
use sat_base::{Clause, Lit, Ref};
use std::alloc::Global;
use std::sync::Arc;
use std::test::Fail;
use step_table::Steps;
use trace_core::{Hints, Packet, Step};

// The step of that literal alone with these hints.
fn unit(alloc: Global, number: i32, hints: &[Ref]) -> Result<Step, Fail>
    ensures { IfOk result (λ step. step.hints ≡ hints.now) }
{
    let lit = Lit::of(number).ok_or("no literal")?;
    let hints = Hints::of(hints.to_vec(alloc)?);
    let clause = Clause::from_lits(alloc, &[lit])?;
    Ok(Step {
        clause,
        hints,
        tag: 1,
    })
}

// Over the inputs 1, -1 2 and -1 3.
#[test]
fn a_step_that_is_not_reached_is_dropped(rt: HostRuntime) -> Result<(), Fail> {
    let alloc = rt.alloc();
    let second = unit(alloc, 2, &[Input(1), Input(2)])?;
    let third = unit(alloc, 3, &[Input(1), Input(3)])?;
    let packets: [Arc<Packet>; 0] = [];
    let own = Steps::of(alloc, &[second, third])?;
    let trimmed = trim(alloc, &packets, &own, 2)?;
    assert_eq!(rt; trimmed.len(), 1);
    for step in &trimmed {
        let lit = Lit::of(3).ok_or("no literal")?;
        assert_eq!(rt; step.clause.lits(), [lit].as_slice());
        assert_eq!(rt; step.hints.items(), [Input(1), Input(3)].as_slice());
        assert_eq!(rt; step.tag, 1);
    }
    Ok(())
}

// The chain of 1, 2 and 3 over the inputs 1, -1 2 and -2 3.
fn chain(alloc: Global) -> Result<Steps, Fail>
    ensures back { IfOk result CiteEarlierOwn }
    ensures three { IfOk result (λ steps. length steps ≡ 3) }
{
    let mut steps = Vec::new(alloc);
    steps.push(unit(alloc, 1, &[Input(1)])?)?;
    steps.push(unit(alloc, 2, &[Own(1), Input(2)])?)?;
    steps.push(unit(alloc, 3, &[Own(2), Input(3)])?)?;
    Ok(Steps::of(alloc, &steps)?)
}

// The packet of a step of that chain.
fn packed(alloc: Global, names: &[Option<Ref>], last: u64) -> Result<Packet, Fail>
    requires { (1 ≤ last) × (last ≤ 3) }
{
    let own = chain(alloc)?;
    Ok(pack(alloc, &own, names, last)?)
}

#[test]
fn a_step_without_own_hints_is_a_packet(rt: HostRuntime) -> Result<(), Fail> {
    let packet = packed(rt.alloc(), &[], 1)?;
    let steps = packet.steps.items();
    assert_eq!(rt; steps.len(), 1);
    for step in steps {
        let lit = Lit::of(1).ok_or("no literal")?;
        assert_eq!(rt; step.clause.lits(), [lit].as_slice());
        assert_eq!(rt; step.hints.items(), [Input(1)].as_slice());
        assert_eq!(rt; step.tag, 1);
    }
    Ok(())
}

#[test]
fn a_published_step_is_named_and_not_packed(rt: HostRuntime) -> Result<(), Fail> {
    let name = Shared { packet: 2, step: 5 };
    let packet = packed(rt.alloc(), &[None, Some(name)], 3)?;
    let steps = packet.steps.items();
    assert_eq!(rt; steps.len(), 1);
    for step in steps {
        assert_eq!(rt; step.hints.items(), [name, Input(3)].as_slice());
    }
    Ok(())
}

#[test]
fn the_last_step_is_packed_though_it_is_published(rt: HostRuntime) -> Result<(), Fail> {
    let name = Shared { packet: 2, step: 5 };
    let packet = packed(rt.alloc(), &[Some(name), None, Some(name)], 3)?;
    let steps = packet.steps.items();
    assert_eq!(rt; steps.len(), 2);
    assert_eq!(rt; steps[0].hints.items(), [name, Input(2)].as_slice());
    assert_eq!(rt; steps[1].hints.items(), [Own(1), Input(3)].as_slice());
    Ok(())
}

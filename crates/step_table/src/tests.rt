//! Steps with small and large hints, taken back and copied.

use crate::Steps;
use sat_base::{Clause, Items, Lit, Ref};
use std::alloc::{AllocError, Global};
use std::process::Abort;
use std::test::Fail;
use trace_core::Step;

const NONE: &[Ref] = &[];

// Names at both sides of what takes four bytes.
const NAMES: &[Ref] = &[
    Ref::Input(1),
    Ref::Input(1_073_741_823),
    Ref::Input(1_073_741_824),
    Ref::Input(4_294_967_295),
    Ref::Own(1),
    Ref::Own(1_073_741_823),
    Ref::Own(1_073_741_824),
    Ref::Own(4_294_967_297),
    Ref::Own(18_446_744_073_709_551_615),
    Ref::Shared { packet: 1, step: 1 },
    Ref::Shared {
        packet: 4_194_303,
        step: 255,
    },
    Ref::Shared {
        packet: 4_194_303,
        step: 256,
    },
    Ref::Shared {
        packet: 4_194_304,
        step: 1,
    },
    Ref::Shared {
        packet: 4_294_967_295,
        step: 4_294_967_297,
    },
];

fn clause(alloc: Global, numbers: &[i32]) -> Result<Clause, AllocError> {
    let mut lits = Vec::new(alloc);
    for number in numbers {
        if let Some(lit) = Lit::of(*number) {
            lits.push(lit)?;
        }
    }
    Clause::from_lits(alloc, &lits)
}

// Adds a step with these literals.
fn push(
    alloc: Global,
    table: &mut Steps,
    numbers: &[i32],
    names: &[Ref],
    tag: u32,
) -> Result<(), AllocError> {
    let clause = clause(alloc, numbers)?;
    table.push(clause.lits(), names, tag)
}

// The step at a place has these literals, hints and tag.
fn has(
    rt: &impl Abort,
    table: &Steps,
    index: usize,
    numbers: &[i32],
    names: &[Ref],
    tag: u32,
) -> Result<(), Fail> {
    assert!(rt; index < table.len());
    let step = table.step(index);
    assert_eq!(rt; step.tag(), tag);
    assert_eq!(rt; step.lits().len(), numbers.len());
    for (lit, number) in step.lits().iter().zip(numbers) {
        assert_eq!(rt; lit.number(), *number);
    }
    assert_eq!(rt; step.count_hints(), names.len());
    for (place, name) in names.iter().enumerate() {
        assert!(rt; place < step.count_hints());
        assert_eq!(rt; step.hint(place), *name);
    }
    Ok(())
}

#[test]
fn steps_keep_their_literals_hints_and_tags(rt: HostRuntime) -> Result<(), Fail> {
    let alloc = rt.alloc();
    let mut table = Steps::new(alloc);
    push(alloc, &mut table, &[-3, 2], NAMES, 4_294_967_295)?;
    push(alloc, &mut table, &[], NONE, 0)?;
    push(alloc, &mut table, &[1], NAMES, 5)?;
    assert_eq!(rt; table.len(), 3);
    has(&rt, &table, 0, &[2, -3], NAMES, 4_294_967_295)?;
    has(&rt, &table, 1, &[], NONE, 0)?;
    has(&rt, &table, 2, &[1], NAMES, 5)
}

#[test]
fn steps_are_taken_back_and_added_anew(rt: HostRuntime) -> Result<(), Fail> {
    let alloc = rt.alloc();
    let mut table = Steps::new(alloc);
    table.truncate(0);
    for tag in 1..4 {
        push(alloc, &mut table, &[1, 2, 3], NAMES, tag)?;
    }
    for (len, left) in [(4, 3), (3, 3), (1, 1)] {
        table.truncate(len);
        assert_eq!(rt; table.len(), left);
    }
    push(alloc, &mut table, &[-4], &[Ref::Own(4_294_967_298)], 9)?;
    let copy = table.copy(alloc)?;
    table.truncate(0);
    assert_eq!(rt; table.len(), 0);
    assert_eq!(rt; copy.len(), 2);
    has(&rt, &copy, 0, &[1, 2, 3], NAMES, 1)?;
    has(&rt, &copy, 1, &[-4], &[Ref::Own(4_294_967_298)], 9)
}

#[test]
fn a_table_is_made_of_steps(rt: HostRuntime) -> Result<(), Fail> {
    let alloc = rt.alloc();
    let mut steps = Vec::new(alloc);
    for tag in 1..3 {
        steps.push(Step {
            clause: clause(alloc, &[5, -6])?,
            hints: Items::of(Vec::from_slice(alloc, NAMES)?),
            tag,
        })?;
    }
    let table = Steps::of(alloc, &steps)?;
    assert_eq!(rt; table.len(), 2);
    has(&rt, &table, 0, &[5, -6], NAMES, 1)?;
    has(&rt, &table, 1, &[5, -6], NAMES, 2)
}

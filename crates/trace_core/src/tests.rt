//! The rows of single calls, and steps that are not ok.

ghost use Rattle.std.specs.Prelude.{◌≡◌, [], length, IfOk};

use crate::{Checker, Hints, Packet, Step, Steps};
use sat_base::Ref::{Input, Own, Shared};
use sat_base::{Clause, Lit, Ref};
use std::alloc::Global;
use std::process::Abort;
use std::test::Fail;

// Three pigeons and two holes: clauses 1 to 9.
const PIGEONS: [&[i32]; 9] = [
    &[1, 2],
    &[3, 4],
    &[5, 6],
    &[-1, -3],
    &[-1, -5],
    &[-3, -5],
    &[-2, -4],
    &[-2, -6],
    &[-4, -6],
];

// What a step shows, its clause, its hints and its tag, and whether it is ok after the rows above.
const STEPS: [(&str, &[i32], &[Ref], u32, bool); 24] = [
    (
        "a hint is missing",
        &[-1],
        &[Input(4), Input(5), Input(3), Input(9)],
        1,
        false,
    ),
    (
        "a wrong tag",
        &[-1],
        &[Input(4), Input(5), Input(2), Input(3), Input(9)],
        2,
        false,
    ),
    (
        "a tag too low",
        &[-1],
        &[Input(4), Input(5), Input(2), Input(3), Input(9)],
        0,
        false,
    ),
    (
        "a hint with two literals that aren't false",
        &[-1],
        &[Input(7), Input(4), Input(5), Input(2), Input(3), Input(9)],
        1,
        false,
    ),
    (
        "a hint twice",
        &[-1],
        &[Input(4), Input(4), Input(5), Input(2), Input(3), Input(9)],
        1,
        false,
    ),
    (
        "a falsified hint before the last",
        &[-1],
        &[Input(4), Input(5), Input(2), Input(3), Input(9), Input(9)],
        1,
        false,
    ),
    (
        "a last hint that is unit",
        &[-1],
        &[Input(4), Input(5), Input(2), Input(3)],
        1,
        false,
    ),
    (
        "a literal that no hinted clause has",
        &[-1, 9],
        &[Input(4), Input(5), Input(2), Input(3), Input(9)],
        1,
        false,
    ),
    (
        "an unknown input",
        &[-1],
        &[Input(4), Input(5), Input(2), Input(3), Input(10)],
        1,
        false,
    ),
    (
        "input 0",
        &[-1],
        &[Input(0), Input(4), Input(5), Input(2), Input(3), Input(9)],
        1,
        false,
    ),
    ("an unknown step", &[-1], &[Own(1)], 1, false),
    (
        "a shared step",
        &[-1],
        &[Shared { packet: 1, step: 1 }],
        1,
        false,
    ),
    ("no hints", &[-1], &[], 0, false),
    ("the empty clause without hints", &[], &[], 0, false),
    (
        "the empty clause from a clause that isn't falsified",
        &[],
        &[Input(1)],
        1,
        false,
    ),
    (
        "the first pigeon can't sit in the first hole",
        &[-1],
        &[Input(4), Input(5), Input(2), Input(3), Input(9)],
        1,
        true,
    ),
    ("a tautology", &[3, -3], &[], 0, true),
    ("a tautology with a hint", &[3, -3], &[Input(1)], 1, false),
    ("a tautology of three literals", &[3, -3, 4], &[], 0, false),
    ("a tautology with a tag", &[3, -3], &[], 1, false),
    ("a tautology over a new variable", &[70, -70], &[], 0, true),
    (
        "a satisfied hint",
        &[],
        &[
            Own(1),
            Input(1),
            Input(7),
            Input(8),
            Input(2),
            Input(4),
            Input(3),
            Input(6),
        ],
        1,
        false,
    ),
    (
        "a step that isn't there yet",
        &[],
        &[Own(4), Input(1)],
        1,
        false,
    ),
    (
        "the empty clause",
        &[],
        &[
            Own(1),
            Input(1),
            Input(7),
            Input(8),
            Input(2),
            Input(3),
            Input(6),
        ],
        1,
        true,
    ),
];

fn clause_of(alloc: Global, numbers: &[i32]) -> Result<Clause, Fail> {
    let mut lits = Vec::new(alloc);
    for number in numbers {
        let lit = Lit::of(*number).ok_or("no literal")?;
        lits.push(lit)?;
    }
    Ok(Clause::from_lits(alloc, &lits)?)
}

fn step_of(alloc: Global, numbers: &[i32], hints: &[Ref], tag: u32) -> Result<Step, Fail> {
    Ok(Step {
        clause: clause_of(alloc, numbers)?,
        hints: Hints::of(hints.to_vec(alloc)?),
        tag,
    })
}

fn with_pigeons(alloc: Global) -> Result<Checker, Fail> {
    let mut checker = Checker::new(alloc);
    for numbers in PIGEONS.iter() {
        let clause = clause_of(alloc, numbers)?;
        checker.add_input(&clause, 1)?;
    }
    Ok(checker)
}

#[test]
fn steps_over_three_pigeons(rt: HostRuntime) -> Result<(), Fail> {
    let alloc = rt.alloc();
    let mut checker = with_pigeons(alloc)?;
    for (what, numbers, hints, tag, ok) in STEPS.iter() {
        let step = step_of(alloc, numbers, hints, *tag)?;
        assert_eq!(rt; checker.check(&step)?, *ok, "{what}");
    }
    Ok(())
}

#[test]
fn tags_are_those_of_the_hints(rt: HostRuntime) -> Result<(), Fail> {
    let alloc = rt.alloc();
    let mut checker = Checker::new(alloc);
    checker.add_input(&clause_of(alloc, &[1])?, 1)?;
    checker.add_input(&clause_of(alloc, &[-1, 2])?, 3)?;
    checker.add_input(&clause_of(alloc, &[-1, -2, 3])?, 2)?;
    let second = step_of(alloc, &[2], &[Input(1), Input(2)], 3)?;
    let third = step_of(alloc, &[3], &[Input(1), Own(1), Input(3)], 3)?;
    let low = step_of(alloc, &[3], &[Input(1), Own(1), Input(3)], 2)?;
    assert!(rt; checker.check(&second)?);
    assert!(rt; !checker.check(&low)?);
    assert!(rt; checker.check(&third)?);
    Ok(())
}

#[test]
fn forgotten_steps_are_unknown(rt: HostRuntime) -> Result<(), Fail> {
    let alloc = rt.alloc();
    let mut checker = with_pigeons(alloc)?;
    let hints = [Input(4), Input(5), Input(2), Input(3), Input(9)];
    let first = step_of(alloc, &[-1], &hints, 1)?;
    let citing = step_of(alloc, &[2], &[Own(1), Input(1)], 1)?;
    assert!(rt; checker.check(&first)?);
    checker.forget_steps();
    assert!(rt; !checker.check(&citing)?);
    assert!(rt; checker.check(&first)?);
    assert!(rt; checker.check(&citing)?);
    Ok(())
}

// A checker of one input that has forgotten a step.
fn with_one_forgotten(alloc: Global) -> Result<Checker, Fail>
    ensures steps { IfOk result (λ checker. checker.steps ≡ []) }
    ensures inputs { IfOk result (λ checker. length checker.inputs ≡ 1) }
{
    let mut checker = Checker::new(alloc);
    checker.add_input(&clause_of(alloc, &[1])?, 1)?;
    let _ = checker.check(&step_of(alloc, &[1], &[Input(1)], 1)?)?;
    checker.forget_steps();
    Ok(checker)
}

#[test]
fn inputs_are_added_behind_forgotten_steps(rt: HostRuntime) -> Result<(), Fail> {
    let alloc = rt.alloc();
    let mut checker = with_one_forgotten(alloc)?;
    checker.add_input(&clause_of(alloc, &[-1, 2])?, 1)?;
    let step = step_of(alloc, &[2], &[Input(1), Input(2)], 1)?;
    assert!(rt; checker.check(&step)?);
    assert_eq!(rt; checker.input_count(), 2);
    Ok(())
}

fn expect_equal(rt: &impl Abort, copy: &Step, step: &Step) {
    assert_eq!(rt; copy.clause.lits(), step.clause.lits());
    assert_eq!(rt; copy.hints.items(), step.hints.items());
    assert_eq!(rt; copy.tag, step.tag);
}

#[test]
fn copies_are_equal(rt: HostRuntime) -> Result<(), Fail> {
    let alloc = rt.alloc();
    let hints = [Input(4), Input(5), Input(2), Input(3), Input(9)];
    let step = step_of(alloc, &[-1], &hints, 1)?;
    expect_equal(&rt, &step.copy(alloc)?, &step);

    let mut steps = Vec::new(alloc);
    steps.push(step)?;
    let packet = Packet {
        steps: Steps::of(steps),
    };
    let copies = packet.copy(alloc)?.steps.into_items();
    for (copy, step) in copies.iter().zip(packet.steps.items()) {
        expect_equal(&rt, copy, step);
    }
    assert_eq!(rt; copies.len(), 1);
    Ok(())
}

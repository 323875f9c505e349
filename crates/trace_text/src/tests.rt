//! The rows of the calls, and a table of lines.

ghost use Rattle.std.specs.Prelude.{◌≡◌, IfOk};

use crate::TraceFault::{Form, Order};
use crate::{TraceFault, print, read};
use sat_base::Ref::{Input, Own};
use sat_base::{Clause, Lit, Ref};
use std::alloc::Global;
use std::test::Fail;
use trace_core::{Hints, Step};

// Texts over two inputs, and how many steps each has, or its fault.
const TEXTS: [(&str, &[u8], Result<usize, TraceFault>); 24] = [
    ("one line", b"t 3 2 0 1 2 0\n", Ok(1)),
    ("no lines", b"", Ok(0)),
    ("no literals", b"t 3 0 1 2 0\n", Ok(1)),
    ("no hints", b"t 3 3 -3 0 0\n", Ok(1)),
    ("an earlier step", b"t 3 2 0 1 2 0\nt 4 0 3 0\n", Ok(2)),
    (
        "an ID that isn't the next",
        b"t 4 2 0 1 2 0\n",
        Err(Order(1)),
    ),
    (
        "an ID again",
        b"t 3 2 0 1 2 0\nt 3 2 0 1 0\n",
        Err(Order(2)),
    ),
    ("a hint equal to its ID", b"t 3 2 0 1 3 0\n", Err(Order(1))),
    ("a later step", b"t 3 2 0 1 4 0\nt 4 0 1 0\n", Err(Order(1))),
    (
        "an ID of 20 digits",
        b"t 18446744073709551615 0 1 0\n",
        Err(Order(1)),
    ),
    (
        "a number of 30 digits",
        b"t 100000000000000000000000000003 0 1 0\n",
        Err(Form(1)),
    ),
    (
        "an ID past the greatest",
        b"t 18446744073709551616 0 1 0\n",
        Err(Form(1)),
    ),
    ("no line feed", b"t 3 2 0 1 2 0", Err(Form(1))),
    (
        "a second line without line feed",
        b"t 3 0 1 0\nt 4 0 1 0",
        Err(Form(2)),
    ),
    ("two spaces", b"t 3  2 0 1 2 0\n", Err(Form(1))),
    ("a space at the end", b"t 3 2 0 1 2 0 \n", Err(Form(1))),
    ("a missing 0", b"t 3 2 0 1 2\n", Err(Form(1))),
    ("both missing", b"t 3 2\n", Err(Form(1))),
    ("a leading zero", b"t 03 2 0 1 2 0\n", Err(Form(1))),
    ("-0", b"t 3 -0 0 1 2 0\n", Err(Form(1))),
    ("descending literals", b"t 3 3 2 0 1 2 0\n", Err(Form(1))),
    (
        "a variable past the greatest",
        b"t 3 8388608 0 1 2 0\n",
        Err(Form(1)),
    ),
    ("another letter", b"d 3 2 0 1 2 0\n", Err(Form(1))),
    ("an empty line", b"t 3 0 1 0\n\n", Err(Form(2))),
];

#[test]
fn texts_and_their_faults(rt: HostRuntime) -> Result<(), Fail> {
    for (what, text, expected) in TEXTS.iter() {
        let found = match read(rt.alloc(), &[1, 1], text) {
            Ok(steps) => Ok(steps.len()),
            Err(fault) => Err(fault),
        };
        assert!(rt; found == *expected, "{what}");
    }
    Ok(())
}

#[test]
fn a_line_is_read_as_its_step(rt: HostRuntime) -> Result<(), Fail> {
    let steps = match read(rt.alloc(), &[1, 1], b"t 3 2 0 1 2 0\n") {
        Ok(steps) => steps,
        Err(_) => return Err(Fail::from("a trace")),
    };
    assert_eq!(rt; steps.len(), 1);
    assert_eq!(rt;
        steps[0].clause.lits(),
        [Lit::of(2).ok_or("no literal")?].as_slice()
    );
    assert_eq!(rt; steps[0].hints.items(), [Input(1), Input(2)].as_slice());
    assert_eq!(rt; steps[0].tag, 1);
    Ok(())
}

#[test]
fn steps_are_read_with_their_tags(rt: HostRuntime) -> Result<(), Fail> {
    let steps = match read(rt.alloc(), &[1, 3], b"t 3 -1 2 0 2 1 0\nt 4 0 3 1 0\n") {
        Ok(steps) => steps,
        Err(_) => return Err(Fail::from("a trace")),
    };
    let hints = [
        [Input(2), Input(1)].as_slice(),
        [Own(1), Input(1)].as_slice(),
    ];
    assert_eq!(rt; steps.len(), 2);
    for (step, hints) in steps.iter().zip(&hints) {
        assert_eq!(rt; step.hints.items(), *hints);
        assert_eq!(rt; step.tag, 3);
    }
    let numbers: Vec<i32> = steps[0]
        .clause
        .lits()
        .iter()
        .map(|lit| lit.number())
        .collect(rt.alloc())?;
    assert_eq!(rt; numbers.as_slice(), [-1, 2].as_slice());
    Ok(())
}

// The step of that literal alone with these hints.
fn unit(alloc: Global, number: i32, hints: &[Ref]) -> Result<Step, Fail>
    ensures { IfOk result (λ step. step.hints ≡ hints.now) }
{
    let lit = Lit::of(number).ok_or("no literal")?;
    let hints = Hints::of(hints.to_vec(alloc)?);
    let clause = Clause::from_lits(alloc, &[lit])?;
    Ok(Step {
        clause,
        hints,
        tag: 1,
    })
}

#[test]
fn a_step_is_a_line(rt: HostRuntime) -> Result<(), Fail> {
    let step = unit(rt.alloc(), 2, &[Input(1), Input(2)])?;
    let text = print(rt.alloc(), 2, &[step])?;
    assert_eq!(rt; text.as_slice(), b"t 3 2 0 1 2 0\n".as_slice());
    Ok(())
}

//! The rows of the calls, a table of texts, and a block of each verdict.

ghost use Rattle.std.specs.Prelude.{true, IfOk};
ghost use Rattle.verdict_text.specs.Block.{IsPrintable, shown_of_answer};

use crate::BlockFault::Form;
use crate::{BlockFault, Shown, block, read};
use entry_core::{Answer, Verdict};
use sat_base::Ref::Input;
use sat_base::{Assign, Clause, Cube, Lit};
use std::alloc::Global;
use std::sync::Arc;
use std::test::Fail;
use trace_core::{Hints, Step, Steps};

// Texts of blocks of two jobs with two and three inputs, and how many blocks each has, or its
// fault.
const TEXTS: [(&str, &[u8], Result<usize, BlockFault>); 26] = [
    ("no blocks", b"", Ok(0)),
    ("a model", b"j 1 SATISFIABLE\nv -1 2 0\n", Ok(1)),
    ("no variables", b"j 1 SATISFIABLE\nv 0\n", Ok(1)),
    ("a part", b"j 1 UNSATISFIABLE\nf -2 0\n", Ok(1)),
    (
        "a trace, and a job behind it",
        b"j 1 UNSATISFIABLE\nf -2 0\nt 3 2 0 1 2 0\nj 2 UNKNOWN\n",
        Ok(2),
    ),
    ("other verdicts", b"j 1 CANCELLED\nj 2 NOMEMORY\n", Ok(2)),
    ("two spaces", b"j 1 SATISFIABLE\nv -1  2 0\n", Err(Form(2))),
    (
        "a trace with another first number",
        b"j 1 UNSATISFIABLE\nf -2 0\nt 4 2 0 1 2 0\n",
        Err(Form(3)),
    ),
    (
        "a job left out",
        b"j 1 UNKNOWN\nj 3 UNKNOWN\n",
        Err(Form(2)),
    ),
    ("a job again", b"j 1 UNKNOWN\nj 1 UNKNOWN\n", Err(Form(2))),
    ("the second job first", b"j 2 UNKNOWN\n", Err(Form(1))),
    (
        "a job without a size",
        b"j 1 UNKNOWN\nj 2 UNKNOWN\nj 3 UNKNOWN\n",
        Err(Form(3)),
    ),
    ("job 0", b"j 0 UNKNOWN\n", Err(Form(1))),
    ("a leading zero", b"j 01 UNKNOWN\n", Err(Form(1))),
    ("another word", b"j 1 UNKNOW\n", Err(Form(1))),
    ("a word more", b"j 1 UNKNOWN UNKNOWN\n", Err(Form(1))),
    ("no line feed", b"j 1 UNKNOWN", Err(Form(1))),
    ("no model", b"j 1 SATISFIABLE\n", Err(Form(2))),
    ("no part", b"j 1 UNSATISFIABLE\n", Err(Form(2))),
    (
        "a variable left out",
        b"j 1 SATISFIABLE\nv 1 3 0\n",
        Err(Form(2)),
    ),
    (
        "variables in another order",
        b"j 1 SATISFIABLE\nv 2 1 0\n",
        Err(Form(2)),
    ),
    (
        "a descending part",
        b"j 1 UNSATISFIABLE\nf 2 1 0\n",
        Err(Form(2)),
    ),
    (
        "a model for a part",
        b"j 1 UNSATISFIABLE\nv 1 0\n",
        Err(Form(2)),
    ),
    ("a trace without a part", b"t 3 2 0 1 2 0\n", Err(Form(1))),
    ("an empty line", b"j 1 UNKNOWN\n\n", Err(Form(2))),
    ("a last line", b"j 1 UNKNOWN\nend 1\n", Err(Form(2))),
];

#[test]
fn texts_and_their_faults(rt: HostRuntime) -> Result<(), Fail> {
    for (what, text, expected) in TEXTS.iter() {
        let found = match read(rt.alloc(), &[1, 1, 2], &[2, 3], text) {
            Ok(blocks) => Ok(blocks.len()),
            Err(fault) => Err(fault),
        };
        assert!(rt; found == *expected, "{what}");
    }
    Ok(())
}

#[test]
fn a_model_is_read(rt: HostRuntime) -> Result<(), Fail> {
    let Ok(blocks) = read(rt.alloc(), &[1, 1], &[2], b"j 1 SATISFIABLE\nv -1 2 0\n") else {
        return Err(Fail::from("a block"));
    };
    assert_eq!(rt; blocks.len(), 1);
    assert_eq!(rt; blocks[0].job, 1);
    let Shown::Model(model) = &blocks[0].shown else {
        return Err(Fail::from("a model"));
    };
    assert_eq!(rt; model.values(), [false, true].as_slice());
    Ok(())
}

#[test]
fn tags_are_those_of_the_jobs_inputs(rt: HostRuntime) -> Result<(), Fail> {
    let text = b"j 1 UNKNOWN\nj 2 UNSATISFIABLE\nf -2 0\nt 4 2 0 3 1 0\n";
    let Ok(blocks) = read(rt.alloc(), &[1, 1, 2], &[2, 3], text) else {
        return Err(Fail::from("blocks"));
    };
    assert_eq!(rt; blocks.len(), 2);
    let Shown::Refuted(part, steps) = &blocks[1].shown else {
        return Err(Fail::from("a part"));
    };
    assert_eq!(rt; part.lits(), [Lit::of(-2).ok_or("no literal")?].as_slice());
    assert_eq!(rt; steps.items().len(), 1);
    assert_eq!(rt; steps.items()[0].tag, 2);
    Ok(())
}

// The answer that -2 is refuted, by the step of 2 from both inputs.
fn refuted(alloc: Global) -> Result<Answer, Fail>
    ensures { IfOk result (λ answer. IsPrintable 2 (shown_of_answer true answer)) }
{
    let part = Cube::from_lits(alloc, &[Lit::of(-2).ok_or("no literal")?])?;
    let clause = Clause::from_lits(alloc, &[Lit::of(2).ok_or("no literal")?])?;
    let hints = Hints::of(vec![in alloc; Input(1), Input(2)]?);
    let mut steps = Vec::new(alloc);
    steps.push(Step {
        clause,
        hints,
        tag: 1,
    })?;
    Ok(Answer::Refuted(part, Steps::of(steps)))
}

#[test]
fn a_block_of_each_verdict(rt: HostRuntime) -> Result<(), Fail> {
    let model = Answer::Model(Assign::of(vec![in rt.alloc(); false, true]?));
    let answered = Verdict::Answered(Arc::new(rt.alloc(), model)?);
    let text = block(rt.alloc(), 1, &answered, 2, true)?;
    assert_eq!(rt; text.as_slice(), b"j 1 SATISFIABLE\nv -1 2 0\n".as_slice());
    let cancelled = block(rt.alloc(), 12, &Verdict::Cancelled(3), 2, true)?;
    assert_eq!(rt; cancelled.as_slice(), b"j 12 CANCELLED\n".as_slice());
    let spent = block(rt.alloc(), 3, &Verdict::Spent, 2, false)?;
    assert_eq!(rt; spent.as_slice(), b"j 3 UNKNOWN\n".as_slice());
    let starved = block(rt.alloc(), 4, &Verdict::Starved, 2, false)?;
    assert_eq!(rt; starved.as_slice(), b"j 4 NOMEMORY\n".as_slice());
    Ok(())
}

#[test]
fn a_refuted_part_with_and_without_its_trace(rt: HostRuntime) -> Result<(), Fail> {
    let verdict = Verdict::Answered(Arc::new(rt.alloc(), refuted(rt.alloc())?)?);
    let plain = block(rt.alloc(), 1, &verdict, 2, false)?;
    assert_eq!(rt; plain.as_slice(), b"j 1 UNSATISFIABLE\nf -2 0\n".as_slice());
    let traced = block(rt.alloc(), 1, &verdict, 2, true)?;
    assert_eq!(rt;
        traced.as_slice(),
        b"j 1 UNSATISFIABLE\nf -2 0\nt 3 2 0 1 2 0\n".as_slice()
    );
    Ok(())
}

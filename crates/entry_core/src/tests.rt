//! Outcomes of verdicts, and the small types.

use crate::{
    Answer, Clauses, Entry, Event, Outcome, Rules, Segment, Verdict, large_budgets_answer,
    longer_journal_keeps, shared_steps_follow, verdicts_have_causes,
};
use sat_base::{Assign, Clause, Cube, Lit};
use std::alloc::Global;
use std::process::Abort;
use std::sync::Arc;
use std::test::Fail;
use trace_core::Steps;

fn clause(alloc: Global, rt: &impl Abort, numbers: &[i32]) -> Result<Clause, Fail> {
    let mut lits = Vec::new(alloc);
    for number in numbers {
        lits.push(Lit::of(*number).expect(rt, "a literal"))?;
    }
    Ok(Clause::from_lits(alloc, &lits)?)
}

#[test]
fn a_verdict_has_the_outcome_of_its_kind(rt: HostRuntime) -> Result<(), Fail> {
    let alloc = rt.alloc();
    let model = Answer::Model(Assign::of(Vec::new(alloc)));
    let part = Cube::from_lits(alloc, &[])?;
    let refuted = Answer::Refuted(part, Steps::of(Vec::new(alloc)));
    let verdicts = [
        (Verdict::Answered(Arc::new(alloc, model)?), Outcome::Model),
        (
            Verdict::Answered(Arc::new(alloc, refuted)?),
            Outcome::Refuted,
        ),
        (Verdict::Cancelled(0), Outcome::Cancelled(0)),
        (Verdict::Cancelled(7), Outcome::Cancelled(7)),
        (Verdict::Spent, Outcome::Spent),
        (Verdict::Starved, Outcome::Starved),
    ];
    for (verdict, outcome) in &verdicts {
        assert!(rt; verdict.outcome() == *outcome, "{outcome:?}");
    }
    Ok(())
}

#[test]
fn an_entry_has_its_caller_and_event(rt: HostRuntime) -> Result<(), Fail> {
    let alloc = rt.alloc();
    let rules = Rules {
        clients: 2,
        workers: 1,
        attempts: 1,
        conflicts: 1,
        first: false,
        traces: true,
    };
    let segment = Segment {
        clauses: Clauses::of(Vec::new(alloc)),
        cube: Cube::from_lits(alloc, &[])?,
    };
    let entry = Entry {
        caller: rules.clients,
        event: Event::Added(Arc::new(alloc, segment)?),
    };
    assert!(rt; entry.caller == 2 && matches!(&entry.event, Event::Added(_)));
    Ok(())
}

#[test]
fn laws_can_be_called() {
    shared_steps_follow();
    longer_journal_keeps();
    verdicts_have_causes();
    large_budgets_answer();
}

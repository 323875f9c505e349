//! How the jobs of a board are settled: by traces, under budgets, under the rule `first`, and up to
//! a wrong place.

use super::{Case, FIRST, NONE, PLAIN, assert_case, assert_settled, run};
use crate::summary::summary;
use entry_core::Outcome;
use std::alloc::{AllocError, Global};
use std::process::Abort;
use std::test::Fail;

pub(super) const PIGEONS: &str =
    "p inccnf\n1 2 0\n3 4 0\n5 6 0\n-1 -3 0\n-1 -5 0\n-3 -5 0\n-2 -4 0\n-2 -6 0\n-4 -6 0\na 0\n";

// The same clauses, and a second cube.
const PIGEONS_TWICE: &str =
    "p inccnf\n1 2 0\n3 4 0\n5 6 0\n-1 -3 0\n-1 -5 0\n-3 -5 0\n-2 -4 0\n-2 -6 0\n-4 -6 0\na 0\n\
    a 0\n";

// A wrong place behind the job.
const PIGEONS_AND_MORE: &str =
    "p inccnf\n1 2 0\n3 4 0\n5 6 0\n-1 -3 0\n-1 -5 0\n-3 -5 0\n-2 -4 0\n-2 -6 0\n-4 -6 0\na 0\nx\n";

const REFUTED: &[Outcome] = &[Outcome::Refuted];

pub(super) const SPENT: &[Outcome] = &[Outcome::Spent];

const SPENT_THEN_REFUTED: &[Outcome] = &[Outcome::Spent, Outcome::Refuted];

// The second job has a model; the first one and the third ask the same, and have none.
const THREE_JOBS: &str = "p inccnf\n1 2 0\n-1 0\na -2 0\na 0\na -2 0\n";

const THIRD_CANCELLED: &[Outcome] = &[Outcome::Refuted, Outcome::Model, Outcome::Cancelled(2)];

const SUMMARY: &str = "sum 7\nclauses 2\njobs 3\nsatisfiable 1\nunsatisfiable 1\nunknown 0\n\
    cancelled 1\nnomemory 0\n";

pub(super) const TRACED: &[Case<'static>] = &[
    Case {
        words: "--trace",
        text: "p inccnf\n1 2 0\na 3 -3 0\n",
        output: "j 1 UNSATISFIABLE\nf 3 -3 0\nt 2 3 -3 0 0\nend 1\n",
        outcomes: REFUTED,
        ..PLAIN
    },
    Case {
        words: "--trace",
        text: "p inccnf\n0\na 0\n",
        output: "j 1 UNSATISFIABLE\nf 0\nt 2 0 1 0\nend 1\n",
        outcomes: REFUTED,
        ..PLAIN
    },
    Case {
        words: "--trace",
        text: "p inccnf\n0\na 5 0\n",
        output: "j 1 UNSATISFIABLE\nf 0\nt 2 0 1 0\nend 1\n",
        outcomes: REFUTED,
        ..PLAIN
    },
    Case {
        words: "--trace",
        text: "p inccnf\n1 2 0\n-1 -2 0\na 1 0\n",
        output: "j 1 SATISFIABLE\nv 1 -2 0\nend 1\n",
        outcomes: FIRST,
        ..PLAIN
    },
];

pub(super) const UNDER_BUDGETS: &[Case<'static>] = &[
    Case {
        text: PIGEONS,
        output: "j 1 UNSATISFIABLE\nf 0\nend 1\n",
        outcomes: REFUTED,
        ..PLAIN
    },
    Case {
        words: "--conflicts 1",
        text: PIGEONS,
        output: "j 1 UNKNOWN\nend 1\n",
        status: 1,
        outcomes: SPENT,
        ..PLAIN
    },
    // The first clause is a unit clause, and leads to a conflict before a decision.
    Case {
        words: "--conflicts 2",
        text: PIGEONS,
        output: "j 1 UNSATISFIABLE\nf 0\nend 1\n",
        outcomes: REFUTED,
        ..PLAIN
    },
    Case {
        words: "--conflicts 1 --attempts 2",
        text: PIGEONS,
        output: "j 1 UNSATISFIABLE\nf 0\nend 1\n",
        outcomes: REFUTED,
        ..PLAIN
    },
    // The clause that the first job's attempt learnt serves the next job.
    Case {
        words: "--conflicts 1",
        text: PIGEONS_TWICE,
        output: "j 1 UNKNOWN\nj 2 UNSATISFIABLE\nf 0\nend 2\n",
        status: 1,
        outcomes: SPENT_THEN_REFUTED,
        ..PLAIN
    },
    // A wrong place outweighs a job that was given up.
    Case {
        words: "--conflicts 1",
        text: PIGEONS_AND_MORE,
        output: "j 1 UNKNOWN\nrefused 12 token\n",
        status: 2,
        outcomes: SPENT,
        ..PLAIN
    },
];

// A model cancels the jobs behind it, those that are read later too, and no other.
pub(super) const UNDER_FIRST: &[Case<'static>] = &[
    Case {
        words: "--first",
        text: "p inccnf\n1 0\na 1 0\n-1 0\na 0\n",
        output: "j 1 SATISFIABLE\nv 1 0\nj 2 CANCELLED\nend 2\n",
        status: 1,
        outcomes: &[Outcome::Model, Outcome::Cancelled(1)],
        ..PLAIN
    },
    Case {
        words: "--first",
        text: THREE_JOBS,
        output: "j 1 UNSATISFIABLE\nf -2 0\nj 2 SATISFIABLE\nv -1 2 0\nj 3 CANCELLED\nend 3\n",
        status: 1,
        outcomes: THIRD_CANCELLED,
        ..PLAIN
    },
    Case {
        words: "--first",
        text: THREE_JOBS,
        cuts: &[31],
        output: "j 1 UNSATISFIABLE\nf -2 0\nj 2 SATISFIABLE\nv -1 2 0\nj 3 CANCELLED\nend 3\n",
        status: 1,
        outcomes: THIRD_CANCELLED,
        ..PLAIN
    },
    Case {
        text: THREE_JOBS,
        output: "j 1 UNSATISFIABLE\nf -2 0\nj 2 SATISFIABLE\nv -1 2 0\nj 3 UNSATISFIABLE\nf -2 0\n\
            end 3\n",
        outcomes: &[Outcome::Refuted, Outcome::Model, Outcome::Refuted],
        ..PLAIN
    },
    // Without a model each job is worked on.
    Case {
        words: "--first",
        text: "p inccnf\n0\na 0\na 5 0\n",
        output: "j 1 UNSATISFIABLE\nf 0\nj 2 UNSATISFIABLE\nf 0\nend 2\n",
        outcomes: &[Outcome::Refuted, Outcome::Refuted],
        ..PLAIN
    },
];

pub(super) const UP_TO_THE_END: &[Case<'static>] = &[
    Case {
        text: "p inccnf\n",
        output: "end 0\n",
        outcomes: NONE,
        ..PLAIN
    },
    PLAIN,
    Case {
        text: "p cnf 2 1\na 0\n",
        output: "refused 1 header\n",
        status: 2,
        outcomes: NONE,
        ..PLAIN
    },
    Case {
        text: "p inccnf\n1 0\na 0\n-1 0\na 1",
        output: "j 1 SATISFIABLE\nv 1 0\nrefused 5 unfinished\n",
        status: 2,
        outcomes: FIRST,
        ..PLAIN
    },
    Case {
        text: "p inccnf\n1 0\na 0\n-1 0\na 0\n2 3 x 0\na 0\n",
        output: "j 1 SATISFIABLE\nv 1 0\nj 2 UNSATISFIABLE\nf 0\nrefused 6 token\n",
        status: 2,
        ..PLAIN
    },
];

pub(super) const GREATEST: Case<'static> = Case {
    text: "p inccnf\n8388607 0\na -8388607 0\n",
    output: "j 1 UNSATISFIABLE\nf -8388607 0\nend 1\n",
    outcomes: REFUTED,
    ..PLAIN
};

// The trace goes on behind the clauses. It may have steps before its last one, and ends in the
// clause of the part's negated literals.
fn assert_goes_on(alloc: Global, rt: &impl Abort) -> Result<(), AllocError> {
    let case = Case {
        words: "--trace",
        text: "p inccnf\n1 0\n-1 2 0\na -2 0\n",
        ..PLAIN
    };
    let run = run(alloc, &case)?;
    let front = b"j 1 UNSATISFIABLE\nf -2 0\nt 3 2 0 1 2 0\n";
    assert!(rt; run.taken.starts_with(front));
    assert!(rt; run.taken.ends_with(b" 0\nend 1\n"));
    assert_eq!(rt; run.status, 0);
    assert_settled(rt, &run, REFUTED, "a trace");
    Ok(())
}

#[test]
fn refuted_parts_have_traces(rt: HostRuntime) -> Result<(), Fail> {
    for case in TRACED {
        assert_case(rt.alloc(), &rt, case)?;
    }
    assert_goes_on(rt.alloc(), &rt)?;
    Ok(())
}

#[test]
fn a_job_is_given_up_after_its_attempts(rt: HostRuntime) -> Result<(), Fail> {
    for case in UNDER_BUDGETS {
        assert_case(rt.alloc(), &rt, case)?;
    }
    Ok(())
}

#[test]
fn under_first_a_model_cancels_the_jobs_behind_it(rt: HostRuntime) -> Result<(), Fail> {
    for case in UNDER_FIRST {
        assert_case(rt.alloc(), &rt, case)?;
    }
    Ok(())
}

#[test]
fn a_summary_counts_the_verdicts(rt: HostRuntime) -> Result<(), Fail> {
    let case = Case {
        words: "--first",
        text: THREE_JOBS,
        ..PLAIN
    };
    let run = run(rt.alloc(), &case)?;
    let Some(board) = &run.board else {
        panic!(rt; "no board");
    };
    let lines = summary(rt.alloc(), 7, board)?;
    assert_eq!(rt; lines.as_slice(), SUMMARY.as_bytes());
    Ok(())
}

#[test]
fn the_greatest_variable_may_be_asked(rt: HostRuntime) -> Result<(), Fail> {
    assert_case(rt.alloc(), &rt, &GREATEST)?;
    Ok(())
}

#[test]
fn the_jobs_are_those_before_the_end_or_a_wrong_place(rt: HostRuntime) -> Result<(), Fail> {
    for case in UP_TO_THE_END {
        assert_case(rt.alloc(), &rt, case)?;
    }
    Ok(())
}

//! Runs whose source or sink fails at one call, and what that shows of the calls.

use super::{BOTH, Case, FIRST, NONE, PLAIN, TWO_ANSWERS, assert_case, assert_settled, run};
use entry_core::Outcome;
use std::alloc::{AllocError, Global};
use std::process::Abort;
use std::test::Fail;

// The pieces of the text of two jobs: each of the first and the last ends a job.
const PIECES: &[usize] = &[17, 5, 4];

// Behind the start the text comes in three reads, the first of which ends job 1 and the third job
// 2, and a fourth finds its end.
pub(super) const SOURCE_FAILS: &[Case<'static>] = &[
    Case {
        cuts: PIECES,
        source_fails: &[1],
        output: "fault read\n",
        status: 3,
        outcomes: NONE,
        ..PLAIN
    },
    Case {
        cuts: PIECES,
        source_fails: &[2],
        output: "fault read\n",
        status: 3,
        outcomes: NONE,
        ..PLAIN
    },
    Case {
        cuts: PIECES,
        source_fails: &[3],
        output: "j 1 SATISFIABLE\nv 1 0\nfault read\n",
        status: 3,
        outcomes: FIRST,
        ..PLAIN
    },
    Case {
        cuts: PIECES,
        source_fails: &[4],
        output: "j 1 SATISFIABLE\nv 1 0\nfault read\n",
        status: 3,
        outcomes: FIRST,
        ..PLAIN
    },
    Case {
        cuts: PIECES,
        source_fails: &[5],
        output: "j 1 SATISFIABLE\nv 1 0\nj 2 UNSATISFIABLE\nf 0\nfault read\n",
        status: 3,
        ..PLAIN
    },
    Case {
        cuts: PIECES,
        source_fails: &[6],
        ..PLAIN
    },
];

// How many bytes a sink takes that fails at a call: the cuts of the text, how many bytes it takes
// at a write, the call, how many it took in all, the status, and how the jobs are settled. A job is
// settled before its block is written, so none is left to be cancelled.
pub(super) const SINK_FAILS: &[(&[usize], usize, &[u64], usize, u8, &[Outcome])] = &[
    (&[], 1000, &[1], 0, 4, BOTH),
    // The blocks and the last line, of 22, 22 and 6 bytes, take one write each, and one flush
    // follows.
    (PIECES, 1000, &[1], 0, 4, FIRST),
    (PIECES, 1000, &[2], 22, 4, BOTH),
    (PIECES, 1000, &[3], 44, 4, BOTH),
    (PIECES, 1000, &[4], 50, 4, BOTH),
    (PIECES, 1000, &[5], 50, 0, BOTH),
    // They take four, four and one write of at most seven bytes.
    (PIECES, 7, &[1], 0, 4, FIRST),
    (PIECES, 7, &[2], 7, 4, FIRST),
    (PIECES, 7, &[3], 14, 4, FIRST),
    (PIECES, 7, &[4], 21, 4, FIRST),
    (PIECES, 7, &[5], 22, 4, BOTH),
    (PIECES, 7, &[6], 29, 4, BOTH),
    (PIECES, 7, &[7], 36, 4, BOTH),
    (PIECES, 7, &[8], 43, 4, BOTH),
    (PIECES, 7, &[9], 44, 4, BOTH),
    (PIECES, 7, &[10], 50, 4, BOTH),
    (PIECES, 7, &[11], 50, 0, BOTH),
];

// The sink is full after ten bytes.
const FULL: &[Case<'static>] = &[
    Case {
        text: "p inccnf\n1 2 0\n-1 0\na 0\n",
        room: 10,
        output: "j 1 SATISF",
        status: 4,
        outcomes: FIRST,
        ..PLAIN
    },
    Case {
        text: "p inccnf\n1 2 0\n-1 0\na 0\n",
        source_fails: &[2],
        room: 10,
        output: "fault read",
        status: 4,
        outcomes: NONE,
        ..PLAIN
    },
];

// The calls are one start, two reads of the text and one that finds its end.
const LONG: &[Case<'static>] = &[
    Case {
        source_fails: &[3],
        output: "fault read\n",
        status: 3,
        outcomes: NONE,
        ..PLAIN
    },
    Case {
        source_fails: &[4],
        output: "j 1 SATISFIABLE\nv 1 0\nfault read\n",
        status: 3,
        outcomes: FIRST,
        ..PLAIN
    },
    Case {
        source_fails: &[5],
        output: "j 1 SATISFIABLE\nv 1 0\nend 1\n",
        outcomes: FIRST,
        ..PLAIN
    },
];

// The sink takes so many bytes of the answers to two jobs.
fn assert_front(
    alloc: Global,
    rt: &impl Abort,
    case: &Case,
    size: usize,
) -> Result<(), AllocError> {
    let run = run(alloc, case)?;
    let taken = run.taken.as_slice();
    assert_eq!(rt; taken.len(), size, "{size} bytes");
    assert!(rt; TWO_ANSWERS.as_bytes().starts_with(taken), "{size} bytes");
    assert_eq!(rt; run.status, case.status, "{size} bytes");
    assert_settled(rt, &run, case.outcomes, "a failing sink");
    Ok(())
}

#[test]
fn a_failing_source_leaves_the_blocks_of_the_jobs_before(rt: HostRuntime) -> Result<(), Fail> {
    for case in SOURCE_FAILS {
        assert_case(rt.alloc(), &rt, case)?;
    }
    Ok(())
}

#[test]
fn a_failing_sink_takes_a_front(rt: HostRuntime) -> Result<(), Fail> {
    for (cuts, most, sink_fails, size, status, outcomes) in SINK_FAILS {
        let case = Case {
            cuts,
            most: *most,
            sink_fails,
            status: *status,
            outcomes,
            ..PLAIN
        };
        assert_front(rt.alloc(), &rt, &case, *size)?;
    }
    for case in FULL {
        assert_case(rt.alloc(), &rt, case)?;
    }
    Ok(())
}

#[test]
fn a_long_text_is_read_in_pieces_of_65536_bytes(rt: HostRuntime) -> Result<(), Fail> {
    let mut text = String::from_str(rt.alloc(), "p inccnf\n")?;
    for _ in 0..20000 {
        text.push_str("1 0\n")?;
    }
    text.push_str("a 0\n")?;
    for case in LONG {
        let case = Case {
            text: &text,
            ..*case
        };
        assert_case(rt.alloc(), &rt, &case)?;
    }
    Ok(())
}

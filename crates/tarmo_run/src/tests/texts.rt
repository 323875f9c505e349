//! Texts, in pieces of whatever size, and their outputs.

use super::outcomes::PIGEONS;
use super::{Case, NONE, PLAIN, TWO_ANSWERS, TWO_JOBS, assert_case, assert_output, run_in_pieces};
use std::alloc::{AllocError, Global};
use std::process::Abort;
use std::test::Fail;

const COUNTER: &str =
    "p inccnf\n-1 0\n-2 0\n-3 1 0\n-3 2 0\na 3 0\n4 1 0\n-4 -1 0\n-5 2 1 0\n-5 -2 -1 0\n\
    5 -2 1 0\n5 2 -1 0\n-6 4 0\n-6 5 0\na 6 0\n7 4 0\n-7 -4 0\n-8 5 4 0\n-8 -5 -4 0\n8 -5 4 0\n\
    8 5 -4 0\n-9 7 0\n-9 8 0\na 9 0\n10 7 0\n-10 -7 0\n-11 8 7 0\n-11 -8 -7 0\n11 -8 7 0\n\
    11 8 -7 0\n-12 10 0\n-12 11 0\na 12 0\n";

const COUNTED: &str =
    "j 1 UNSATISFIABLE\nf 3 0\nj 2 UNSATISFIABLE\nf 6 0\nj 3 UNSATISFIABLE\nf 9 0\n\
    j 4 SATISFIABLE\nv -1 -2 -3 4 -5 -6 -7 8 -9 10 11 12 0\nend 4\n";

pub(super) const ACCEPTED: &[(&str, &str)] = &[
    ("p inccnf", "end 0\n"),
    (
        "p inccnf\n1 2 0\n-1 0\na 0\n",
        "j 1 SATISFIABLE\nv -1 2 0\nend 1\n",
    ),
    (TWO_JOBS, TWO_ANSWERS),
    (
        "p inccnf\n1 2 0\na 3 -3 0\n",
        "j 1 UNSATISFIABLE\nf 3 -3 0\nend 1\n",
    ),
    ("p inccnf\n0\na 0\n", "j 1 UNSATISFIABLE\nf 0\nend 1\n"),
    ("p inccnf\na 0\n1 0\n", "j 1 SATISFIABLE\nv 0\nend 1\n"),
    (
        "p inccnf\n1 0\na 1 -3 2 0\n",
        "j 1 SATISFIABLE\nv 1 2 -3 0\nend 1\n",
    ),
    (
        "p inccnf\n1 2 0\n-1 -2 0\na 1 0\na -1 0\na 1 2 0\n",
        "j 1 SATISFIABLE\nv 1 -2 0\nj 2 SATISFIABLE\nv -1 2 0\nj 3 UNSATISFIABLE\nf 1 2 0\nend 3\n",
    ),
    (
        "p inccnf\n1 0\na -1 2 3 0\n",
        "j 1 UNSATISFIABLE\nf -1 0\nend 1\n",
    ),
    (COUNTER, COUNTED),
    (PIGEONS, "j 1 UNSATISFIABLE\nf 0\nend 1\n"),
    // A text in two layouts.
    (
        "p inccnf\n1 2 0\n-1 0\na -2 0\n",
        "j 1 UNSATISFIABLE\nf -2 0\nend 1\n",
    ),
    (
        "p inccnf 3 4\r\n c note\r\n1 2 \r\nc inside\r\n0 -1\t0\r\na -2 0\r\n",
        "j 1 UNSATISFIABLE\nf -2 0\nend 1\n",
    ),
    // A second 0 is an empty clause, and a line of one letter a comment.
    ("p inccnf\n1 0 0\na 0\n", "j 1 UNSATISFIABLE\nf 0\nend 1\n"),
    ("p inccnf\nc\na 0\n", "j 1 SATISFIABLE\nv 0\nend 1\n"),
];

const UNFINISHED: &str = "j 1 SATISFIABLE\nv 1 0\nrefused 4 unfinished\n";

pub(super) const REFUSED: &[(&str, &str)] = &[
    ("", "refused 1 header\n"),
    ("p cnf 2 1\n1 0\n", "refused 1 header\n"),
    ("p\ninccnf", "refused 1 header\n"),
    ("p inccnfx\n", "refused 1 header\n"),
    ("c only\n", "refused 1 header\n"),
    ("p inccnf\n1 0\na 0\n2 3\n", UNFINISHED),
    ("p inccnf\n1 0\na 0\n2 3", UNFINISHED),
    ("p inccnf\n8388608 0\n", "refused 2 variable\n"),
    (
        "p inccnf\n99999999999999999999999 0\n",
        "refused 2 variable\n",
    ),
    ("p inccnf\n\0", "refused 2 token\n"),
    ("p inccnf\n-", "refused 2 token\n"),
    ("p inccnf\na", "refused 2 unfinished\n"),
    ("p inccnf\na a 0\n", "refused 2 token\n"),
    ("p inccnf\n01 0\n", "refused 2 token\n"),
    ("p inccnf\n+5 0\n", "refused 2 token\n"),
    ("p inccnf\n-0 0\n", "refused 2 token\n"),
    ("p inccnf\n1 a 2 0\n", "refused 2 token\n"),
    ("p inccnf\na1 0\n", "refused 2 token\n"),
    (
        "p inccnf\n1 0\na 0 x\na 0\n",
        "j 1 SATISFIABLE\nv 1 0\nrefused 3 token\n",
    ),
];

// The text has this output and this status, in pieces of whatever size.
fn assert_in_pieces(
    alloc: Global,
    rt: &impl Abort,
    text: &str,
    output: &str,
    status: u8,
) -> Result<(), AllocError> {
    let case = Case { text, ..PLAIN };
    for size in [1usize, 5, 1000] {
        let cuts = vec![in alloc; size; text.len()]?;
        let run = run_in_pieces(alloc, cuts, &case)?;
        assert_output(rt, &run, output, status);
    }
    Ok(())
}

#[test]
fn accepted_texts_have_a_block_for_each_job(rt: HostRuntime) -> Result<(), Fail> {
    for (text, output) in ACCEPTED {
        assert_in_pieces(rt.alloc(), &rt, text, output, 0)?;
    }
    Ok(())
}

#[test]
fn the_jobs_before_a_wrong_place_have_their_blocks(rt: HostRuntime) -> Result<(), Fail> {
    for (text, output) in REFUSED {
        assert_in_pieces(rt.alloc(), &rt, text, output, 2)?;
    }
    Ok(())
}

#[test]
fn a_number_of_any_length_is_refused_at_its_line(rt: HostRuntime) -> Result<(), Fail> {
    let mut text = String::from_str(rt.alloc(), "p inccnf\n")?;
    for _ in 0..100000 {
        text.push_str("9")?;
    }
    let case = Case {
        text: &text,
        output: "refused 2 variable\n",
        status: 2,
        outcomes: NONE,
        ..PLAIN
    };
    assert_case(rt.alloc(), &rt, &case)?;
    Ok(())
}

//! Outputs for three texts, and what is found in each.

use crate::Finding::{Bad, Good};
use crate::Flaw::{Form, Last, Model, Number, Part, Trace};
use crate::{Finding, audit};
use std::alloc::Global;
use std::process::Abort;
use std::test::Fail;

const REFUTED: &[u8] = b"p inccnf\n1 0\n-1 2 0\na -2 0\n";

const ONE: Finding = Good {
    proved: 1,
    unproved: 0,
};

const REFUTED_OUTPUTS: [(&[u8], Finding); 26] = [
    (b"j 1 UNSATISFIABLE\nf -2 0\nt 3 2 0 1 2 0\nend 1\n", ONE),
    (b"j 1 UNSATISFIABLE\nf -2 0\nt 3 2 0 1 2 0\nmemory\n", ONE),
    (
        b"j 1 UNSATISFIABLE\nf -2 0\nt 3 2 0 1 2 0\nfault read\n",
        ONE,
    ),
    (
        b"j 1 UNKNOWN\nend 1\n",
        Good {
            proved: 0,
            unproved: 1,
        },
    ),
    (
        b"memory\n",
        Good {
            proved: 0,
            unproved: 0,
        },
    ),
    (b"j 1 UNSATISFIABLE\nf -2 0\nend 1\n", Bad(2, Trace)),
    (
        b"j 1 UNSATISFIABLE\nf 2 0\nt 3 2 0 1 2 0\nend 1\n",
        Bad(2, Part),
    ),
    (
        b"j 1 UNSATISFIABLE\nf -2 0\nt 3 2 0 1 2 0\nend 2\n",
        Bad(4, Last),
    ),
    (
        b"j 2 UNSATISFIABLE\nf -2 0\nt 3 2 0 1 2 0\nend 1\n",
        Bad(1, Number),
    ),
    (b"", Bad(1, Form)),
    (b"j 0 UNKNOWN\nend 1\n", Bad(1, Number)),
    (b"j 100000000000000000000 UNKNOWN\nend 1\n", Bad(1, Number)),
    (b"j 1 UNKNOWN\nj 2 UNKNOWN\nend 1\n", Bad(2, Number)),
    (b"j 01 UNKNOWN\nend 1\n", Bad(1, Form)),
    (
        b"j 1 UNSATISFIABLE\nf -2 0\nt 3 2 0 1 0\nend 1\n",
        Bad(3, Trace),
    ),
    (
        b"j 1 UNSATISFIABLE\nf -2 0\nt 4 2 0 1 2 0\nend 1\n",
        Bad(3, Trace),
    ),
    (
        b"j 1 UNSATISFIABLE\nf -2 0\nt 3 2 0 1 2\nend 1\n",
        Bad(3, Form),
    ),
    (
        b"j 1 UNSATISFIABLE\nf -2 0\nt 3 1 2 0 1 0\nend 1\n",
        Bad(3, Trace),
    ),
    (
        b"j 1 UNSATISFIABLE\nf 0\nt 3 2 0 1 2 0\nend 1\n",
        Bad(3, Trace),
    ),
    (b"j 1 UNSATISFIABLE\nf -2 0\nt 3 2 0 1 2 0\n", Bad(4, Form)),
    (
        b"j 1 UNSATISFIABLE\nf -2 0\nt 3 2 0 1 2 0\nend 1",
        Bad(4, Form),
    ),
    (b"j 1 UNKNOWN\nend 1\nend 1\n", Bad(3, Form)),
    (b"j 1 UNKNOWN\nrefused 1 header\n", Bad(2, Last)),
    (b"j 1 UNKNOWN\nrefused 1 heading\n", Bad(2, Form)),
    (b"end 1\n", Bad(1, Last)),
    (b"j 1 SATISFIABLE\nv 1 2 0\nend 1\n", Bad(2, Model)),
];

// The second job's clauses begin with those of the first one.
const GROWING: &[u8] = b"p inccnf\n1 0\n-1 2 0\na -2 0\n-2 3 0\na -3 0\n";

const GROWING_OUTPUTS: [(&[u8], Finding); 3] = [
    (
        b"j 1 UNSATISFIABLE\nf -2 0\nt 3 2 0 1 2 0\n\
          j 2 UNSATISFIABLE\nf -3 0\nt 4 3 0 1 2 3 0\nend 2\n",
        Good {
            proved: 2,
            unproved: 0,
        },
    ),
    // The second trace cites a step of the first one.
    (
        b"j 1 UNSATISFIABLE\nf -2 0\nt 3 2 0 1 2 0\nt 4 2 0 3 0\n\
          j 2 UNSATISFIABLE\nf -3 0\nt 5 3 0 4 3 0\nend 2\n",
        Bad(7, Trace),
    ),
    // The first trace cites an input of the second job.
    (
        b"j 1 UNSATISFIABLE\nf -2 0\nt 3 2 0 1 2 0\nt 4 3 0 2 3 0\n",
        Bad(4, Trace),
    ),
];

const SATISFIED: &[u8] = b"p inccnf\n1 2 0\n-1 0\na 0\n";

const SATISFIED_OUTPUTS: [(&[u8], Finding); 4] = [
    (b"j 1 SATISFIABLE\nv -1 2 0\nend 1\n", ONE),
    (b"j 1 SATISFIABLE\nv -1 -2 0\nend 1\n", Bad(2, Model)),
    (b"j 1 SATISFIABLE\nv -1 0\nend 1\n", Bad(2, Form)),
    (b"j 1 SATISFIABLE\nend 1\n", Bad(2, Form)),
];

const UNFINISHED: &[u8] = b"p inccnf\n1 0\na 0\n2 3";

const UNFINISHED_OUTPUTS: [(&[u8], Finding); 5] = [
    (b"j 1 SATISFIABLE\nv 1 0\nrefused 4 unfinished\n", ONE),
    (b"j 1 SATISFIABLE\nv 1 0\nrefused 4 token\n", Bad(3, Last)),
    (
        b"j 1 SATISFIABLE\nv 1 0\nrefused 04 unfinished\n",
        Bad(3, Form),
    ),
    (b"j 1 SATISFIABLE\nv 1 0\nend 1\n", Bad(3, Last)),
    (b"refused 4 unfinished\n", Bad(1, Last)),
];

fn compare(
    alloc: Global,
    rt: &impl Abort,
    text: &[u8],
    outputs: &[(&[u8], Finding)],
) -> Result<(), Fail> {
    for (output, expected) in outputs {
        let found = audit(alloc, text, output)?;
        assert_eq!(rt; found, *expected);
    }
    Ok(())
}

#[test]
fn outputs_with_a_refuted_part(rt: HostRuntime) -> Result<(), Fail> {
    compare(rt.alloc(), &rt, REFUTED, &REFUTED_OUTPUTS)
}

#[test]
fn outputs_with_two_refuted_parts(rt: HostRuntime) -> Result<(), Fail> {
    compare(rt.alloc(), &rt, GROWING, &GROWING_OUTPUTS)
}

#[test]
fn outputs_with_a_model(rt: HostRuntime) -> Result<(), Fail> {
    compare(rt.alloc(), &rt, SATISFIED, &SATISFIED_OUTPUTS)
}

#[test]
fn outputs_for_a_text_with_a_wrong_place(rt: HostRuntime) -> Result<(), Fail> {
    compare(rt.alloc(), &rt, UNFINISHED, &UNFINISHED_OUTPUTS)
}

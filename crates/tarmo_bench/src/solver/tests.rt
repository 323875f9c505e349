//! The counts of a small text.

use crate::reader::Taker;
use crate::solver::solving::{Counts, Solver};
use icnf_text::Reader;
use std::test::Fail;

// Variable 2p - 1 says that pigeon p sits in the first hole, 2p in the second.
const PIGEONS: &[u8] = b"p inccnf
1 2 0
a -1 0
3 4 0 5 6 0
-1 -3 0 -1 -5 0 -3 -5 0
-2 -4 0 -2 -6 0 -4 -6 0
a 0
";

// The first cube is decided and forces 2, which is a model. For the second one -6 is decided and
// forces 5, -1, -3, 2 and 4, until -2 -4 is false. That teaches -5, which level 0 is given and
// which forces 6, -2, -4, 1 and 3 there, until -1 -3 is false: the pigeons are refuted.
#[test]
fn two_jobs_about_pigeons_are_counted(rt: HostRuntime) -> Result<(), Fail> {
    let mut reader = Reader::new(rt.alloc());
    let mut solver = Solver::new(rt.alloc());
    let fed = reader.feed(PIGEONS)?;
    assert!(rt; solver.take(fed.statements).is_ok());
    let session = session::Counts {
        learnt: 1,
        decisions: 2,
        propagations: 12,
    };
    let counts = Counts {
        jobs: 2,
        conflicts: 2,
        session,
    };
    assert_eq!(rt; solver.counts(), counts);
    Ok(())
}

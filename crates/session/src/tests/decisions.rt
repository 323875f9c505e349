//! Which variable is decided first, and with which phase.

use super::{clause, cube, start};
use crate::{Round, Session};
use std::alloc::Global;
use std::process::Abort;
use std::test::Fail;

// The model that a session of each variant finds first for the clause 1 2. Half the variant is even
// where 2 is decided first, and else 1 is; in odd variants it becomes true. The variants 0, 2, 5
// and 7 rank by scores, the others by a queue.
const ROWS: [(u32, [bool; 2]); 8] = [
    (0, [true, false]),
    (1, [true, true]),
    (2, [false, true]),
    (3, [true, true]),
    (4, [true, false]),
    (5, [true, true]),
    (6, [false, true]),
    (7, [true, true]),
];

fn find_first(alloc: Global, rt: &impl Abort, variant: u32, values: [bool; 2]) -> Result<(), Fail> {
    let clauses = [clause(alloc, rt, &[1, 2])?];
    let free = cube(alloc, rt, &[])?;
    let mut session = Session::new(alloc, variant);
    session.load(&clauses, &free)?;
    match session.solve(&free, 256)? {
        Round::Model(model) => {
            assert_eq!(rt; model.values(), values.as_slice(), "variant {variant}");
        }
        _ => panic!(rt; "no model"),
    }
    Ok(())
}

#[test]
fn the_variant_says_what_is_decided_first(rt: HostRuntime) -> Result<(), Fail> {
    for (variant, values) in ROWS {
        find_first(rt.alloc(), &rt, variant, values)?;
    }
    Ok(())
}

// First phases are false here, and one of the two variables would stay so.
#[test]
fn variables_are_decided_with_their_last_phase(rt: HostRuntime) -> Result<(), Fail> {
    let alloc = rt.alloc();
    let clauses = [clause(alloc, &rt, &[1, 2])?];
    let both = cube(alloc, &rt, &[1, 2])?;
    let mut session = start(alloc, &rt, &clauses, &both)?;
    match session.solve(&both, 1)? {
        Round::Model(_) => {}
        _ => panic!(rt; "no model"),
    }
    let free = cube(alloc, &rt, &[])?;
    match session.solve(&free, 1)? {
        Round::Model(model) => assert_eq!(rt; model.values(), [true, true].as_slice()),
        _ => panic!(rt; "no second model"),
    }
    Ok(())
}

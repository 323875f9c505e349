//! Rows worked out by hand, and each public call once.

use super::*;
use std::alloc::{AllocError, Global};
use std::test::Fail;

// The literals that these numbers write.
fn lits(alloc: Global, numbers: &[i32]) -> Result<Vec<Lit>, AllocError> {
    let mut lits = Vec::new(alloc);
    for number in numbers {
        if let Some(lit) = Lit::of(*number) {
            lits.push(lit)?;
        }
    }
    Ok(lits)
}

fn numbers(alloc: Global, lits: &[Lit]) -> Result<Vec<i32>, AllocError> {
    lits.iter().map(|lit| lit.number()).collect(alloc)
}

#[test]
fn literals_have_their_codes(rt: HostRuntime) -> Result<(), Fail> {
    for (number, code) in [
        (1, 2),
        (-1, 3),
        (5, 10),
        (8_388_607, 16_777_214),
        (-8_388_607, 16_777_215),
    ] {
        let lit = Lit::of(number).ok_or("a literal")?;
        assert_eq!(rt; lit.code(), code);
        assert_eq!(rt; lit.number(), number);
        assert_eq!(rt; lit.var(), number.unsigned_abs());
        assert_eq!(rt; lit.is_negative(), number < 0);
        assert_eq!(rt; lit.negated().code(), code ^ 1);
    }
    for number in [0, 8_388_608, -8_388_608, i32::MIN] {
        assert_eq!(rt; Lit::of(number), None, "{number}");
    }
    Ok(())
}

#[test]
fn sets_are_sorted_and_have_no_repeats(rt: HostRuntime) -> Result<(), Fail> {
    let alloc = rt.alloc();
    let given = [2, -1, 2].as_slice();
    for (given, sorted) in [
        (given, [-1, 2].as_slice()),
        ([-3, 3].as_slice(), [3, -3].as_slice()),
        ([].as_slice(), [].as_slice()),
    ] {
        let clause = Clause::from_lits(alloc, &lits(alloc, given)?)?;
        assert_eq!(rt; numbers(alloc, clause.lits())?.as_slice(), sorted);
        assert!(rt; clause.copy(alloc)? == clause);
        let cube = Cube::from_lits(alloc, &lits(alloc, given)?)?;
        assert_eq!(rt; numbers(alloc, cube.lits())?.as_slice(), sorted);
        assert!(rt; cube.copy(alloc)? == cube);
        assert_eq!(rt;
            numbers(alloc, &clause.into_lits())?,
            numbers(alloc, &cube.into_lits())?
        );
    }
    Ok(())
}

#[test]
fn items_keep_their_order(rt: HostRuntime) -> Result<(), Fail> {
    let alloc = rt.alloc();
    for given in [[].as_slice(), [3, -1, 3].as_slice()] {
        let list = Items::of(lits(alloc, given)?);
        assert_eq!(rt; numbers(alloc, list.items())?.as_slice(), given);
        assert_eq!(rt; numbers(alloc, &list.into_items())?.as_slice(), given);
    }
    Ok(())
}

#[test]
fn a_negated_cube_is_sorted(rt: HostRuntime) -> Result<(), Fail> {
    let alloc = rt.alloc();
    let cube = Cube::from_lits(alloc, &lits(alloc, &[1, -2])?)?;
    assert_eq!(rt;
        numbers(alloc, cube.negated(alloc)?.lits())?.as_slice(),
        [-1, 2].as_slice()
    );
    let both = Cube::from_lits(alloc, &lits(alloc, &[3, -3])?)?;
    assert_eq!(rt;
        numbers(alloc, both.negated(alloc)?.lits())?.as_slice(),
        [3, -3].as_slice()
    );
    Ok(())
}

#[test]
fn order_and_greatest_variable_are_those_of_the_codes(rt: HostRuntime) -> Result<(), Fail> {
    let alloc = rt.alloc();
    for (numbers, ascends, greatest) in [
        ([1, -1, 2].as_slice(), true, 2),
        ([-1, 1].as_slice(), false, 1),
        ([-5, -5].as_slice(), false, 5),
        ([].as_slice(), true, 0),
        ([-8_388_607].as_slice(), true, limits::GREATEST_VARIABLE),
    ] {
        let lits = lits(alloc, numbers)?;
        assert_eq!(rt; is_strictly_ascending(&lits), ascends, "{numbers:?}");
        assert_eq!(rt; greatest_variable(&lits), greatest, "{numbers:?}");
    }
    Ok(())
}

#[test]
fn truth_is_the_textbooks(rt: HostRuntime) -> Result<(), Fail> {
    let alloc = rt.alloc();
    let a = Assign::of([false, true].to_vec(alloc)?);
    for (numbers, clause_is_true, cube_is_true) in [
        ([1, 2].as_slice(), true, false),
        ([-1, 2].as_slice(), true, true),
        ([1, -2].as_slice(), false, false),
        ([3].as_slice(), false, false),
        ([-3].as_slice(), true, true),
        ([].as_slice(), false, true),
    ] {
        let lits = lits(alloc, numbers)?;
        assert_eq!(rt;
            Clause::from_lits(alloc, &lits)?.is_true(&a),
            clause_is_true,
            "{numbers:?}"
        );
        assert_eq!(rt;
            Cube::from_lits(alloc, &lits)?.is_true(&a),
            cube_is_true,
            "{numbers:?}"
        );
    }
    assert_eq!(rt; a.copy(alloc)?.values(), a.values());
    assert_eq!(rt; a.into_values().as_slice(), [false, true].as_slice());
    Ok(())
}

#[test]
fn both_signs_make_a_tautology(rt: HostRuntime) -> Result<(), Fail> {
    let alloc = rt.alloc();
    for (numbers, expected) in [
        ([1, -2, 3, 2].as_slice(), true),
        ([-1, 2, -3].as_slice(), false),
        ([2, 3, -3].as_slice(), true),
        ([].as_slice(), false),
    ] {
        let clause = Clause::from_lits(alloc, &lits(alloc, numbers)?)?;
        assert_eq!(rt; clause.is_tautology(), expected, "{numbers:?}");
    }
    Ok(())
}

#[test]
fn laws_and_names_can_be_called(rt: HostRuntime) {
    entailment_grows();
    resolution_is_sound();
    cube_contradicts_its_negation();
    truth_sees_members();
    one_answer();
    few_clauses();
    assert!(rt; Ref::Input(2) < Ref::Shared { packet: 1, step: 1 });
    assert_eq!(rt; Ref::Own(3), Ref::Own(3));
}

//! Clauses, call by call.

use super::*;
use std::test::Fail;

fn clause(alloc: Global, numbers: &[i32]) -> Result<Clause, AllocError> {
    let mut lits = Vec::new(alloc);
    for number in numbers {
        if let Some(lit) = Lit::of(*number) {
            lits.push(lit)?;
        }
    }
    Clause::from_lits(alloc, &lits)
}

#[test]
fn clauses_keep_their_literals_tags_and_origins(rt: HostRuntime) -> Result<(), Fail> {
    let alloc = rt.alloc();
    let mut arena = Arena::new(alloc);
    let first = clause(alloc, &[1, 2])?;
    assert_eq!(rt; arena.add(&first, 1, Ref::Input(1))?, 0);
    let shared = Ref::Shared {
        packet: 4_194_304,
        step: 65_536,
    };
    for (id, origin) in [(1, Ref::Own(4_294_967_296)), (2, shared), (3, Ref::Own(7))] {
        let second = clause(alloc, &[-3, 4, 1])?;
        assert_eq!(rt; arena.add(&second, 5, origin)?, id);
    }
    assert_eq!(rt; arena.len(), 4);
    assert_eq!(rt; arena.lits(0).len(), 2);
    arena.swap(0, 0, 1);
    for (id, numbers) in [(0, [2, 1].as_slice()), (1, [1, -3, 4].as_slice())] {
        assert!(rt; id < arena.len());
        assert_eq!(rt; arena.lits(id).len(), numbers.len());
        for (lit, number) in arena.lits(id).iter().zip(numbers) {
            assert_eq!(rt; lit.number(), *number);
        }
    }
    let rows = [
        (0, 1, Ref::Input(1)),
        (1, 5, Ref::Own(4_294_967_296)),
        (2, 5, shared),
        (3, 5, Ref::Own(7)),
    ];
    for (id, tag, origin) in rows {
        assert!(rt; id < arena.len());
        assert_eq!(rt; arena.tag(id), tag);
        assert_eq!(rt; arena.origin(id), origin);
    }
    Ok(())
}

#[test]
fn clauses_are_taken_back_and_added_anew(rt: HostRuntime) -> Result<(), Fail> {
    let alloc = rt.alloc();
    let mut arena = Arena::new(alloc);
    arena.truncate(0);
    let numbers = [1, 2, 3].as_slice();
    for tag in 1..4 {
        let _ = arena.add(&clause(alloc, numbers)?, tag, Ref::Own(4_294_967_296))?;
    }
    for (len, left) in [(4, 3), (3, 3), (1, 1)] {
        arena.truncate(len);
        assert_eq!(rt; arena.len(), left);
    }
    let added = clause(alloc, &[-4])?;
    assert_eq!(rt; arena.add(&added, 9, Ref::Own(4_294_967_297))?, 1);
    let rows = [
        (0, 1, Ref::Own(4_294_967_296), numbers),
        (1, 9, Ref::Own(4_294_967_297), [-4].as_slice()),
    ];
    for (id, tag, origin, numbers) in rows {
        assert!(rt; id < arena.len());
        assert_eq!(rt; arena.tag(id), tag);
        assert_eq!(rt; arena.origin(id), origin);
        assert_eq!(rt; arena.lits(id).len(), numbers.len());
        for (lit, number) in arena.lits(id).iter().zip(numbers) {
            assert_eq!(rt; lit.number(), *number);
        }
    }
    arena.truncate(0);
    assert_eq!(rt; arena.len(), 0);
    Ok(())
}

#[test]
fn clauses_that_are_kept_are_numbered_anew(rt: HostRuntime) -> Result<(), Fail> {
    let alloc = rt.alloc();
    let mut arena = Arena::new(alloc);
    arena.keep(&[]);
    let rows = [
        (1, Ref::Own(4_294_967_296), [1, 2].as_slice()),
        (2, Ref::Own(4_294_967_297), [-3, 4, 5].as_slice()),
        (3, Ref::Own(4_294_967_298), [-6, 7, 8, 9].as_slice()),
    ];
    for (tag, origin, numbers) in rows {
        let _ = arena.add(&clause(alloc, numbers)?, tag, origin)?;
    }
    assert_eq!(rt; arena.len(), 3);
    arena.keep(&[true, false, true]);
    assert_eq!(rt; arena.len(), 2);
    let added = clause(alloc, &[-9])?;
    assert_eq!(rt; arena.add(&added, 4, Ref::Input(7))?, 2);
    let rows = [
        (0, 1, Ref::Own(4_294_967_296), [1, 2].as_slice()),
        (1, 3, Ref::Own(4_294_967_298), [-6, 7, 8, 9].as_slice()),
        (2, 4, Ref::Input(7), [-9].as_slice()),
    ];
    for (id, tag, origin, numbers) in rows {
        assert!(rt; id < arena.len());
        assert_eq!(rt; arena.tag(id), tag);
        assert_eq!(rt; arena.origin(id), origin);
        assert_eq!(rt; arena.lits(id).len(), numbers.len());
        for (lit, number) in arena.lits(id).iter().zip(numbers) {
            assert_eq!(rt; lit.number(), *number);
        }
    }
    Ok(())
}

//! The lists, call by call.

ghost use Rattle.std.specs.Prelude.{◌≡◌, ◌≢◌, ℕ, ◌≤◌, List, [], ◌∷◌};
ghost use Rattle.sat_base.specs.Lit.{variable};
ghost use Rattle.watch_ring.specs.Ring.{list_of};

use super::*;
use std::process::Abort;
use std::test::Fail;

fn literal(rt: &impl Abort, number: i32) -> Lit
    ensures { variable result ≤ 2 }
{
    let lit = Lit::of(number).expect(rt, "a literal");
    assert!(rt; lit.var() <= 2);
    lit
}

// Puts the sides 0 of the clauses 0 and 1 into one list, where there was nothing.
fn join_two(ring: &mut WatchRing, lit: Lit)
    requires empty { (other : ℕ) → list_of ring.old other ≡ [] }
    requires var { variable lit ≤ ring.old.vars }
    requires clauses { 2 ≤ ring.old.clauses }
    ensures list { list_of ring.new lit ≡ 2 ∷ 0 ∷ [] }
    ensures others { (other : ℕ) → other ≢ lit → list_of ring.new other ≡ [] }
    ensures vars { ring.new.vars ≡ ring.old.vars }
    ensures clauses { ring.new.clauses ≡ ring.old.clauses }
{
    ring.join(lit, 0, 0);
    ring.join(lit, 1, 0);
}

// Moves side 0 of clause 0 from behind that of clause 1 to an empty list.
fn move_second(ring: &mut WatchRing, from: Lit, to: Lit)
    requires list { list_of ring.old from ≡ 2 ∷ 0 ∷ [] }
    requires var { variable to ≤ ring.old.vars }
    requires other { to ≢ from }
    ensures from { list_of ring.new from ≡ 2 ∷ [] }
    ensures vars { ring.new.vars ≡ ring.old.vars }
    ensures clauses { ring.new.clauses ≡ ring.old.clauses }
{
    ring.move_to(from, Some((1, 0)), 0, 0, to);
}

// Takes side 0 of clause 1 from a list that has nothing else.
fn leave_first(ring: &mut WatchRing, from: Lit)
    requires list { list_of ring.old from ≡ 2 ∷ [] }
    ensures clauses { ring.new.clauses ≡ ring.old.clauses }
{
    ring.leave(from, None, 1, 0);
}

#[test]
fn sides_join_move_and_leave(rt: HostRuntime) -> Result<(), Fail> {
    let lit = literal(&rt, 1);
    let to = literal(&rt, -2);
    assert!(rt; to != lit);
    let mut ring = WatchRing::new(rt.alloc());
    ring.reserve(2, 2)?;
    join_two(&mut ring, lit);
    assert_eq!(rt; ring.first(lit), Some((1, 0)));
    assert_eq!(rt; ring.next(1, 0), Some((0, 0)));
    assert_eq!(rt; ring.next(0, 0), None);
    move_second(&mut ring, lit, to);
    assert_eq!(rt; ring.first(lit), Some((1, 0)));
    assert_eq!(rt; ring.next(1, 0), None);
    assert_eq!(rt; ring.first(to), Some((0, 0)));
    assert_eq!(rt; ring.next(0, 0), None);
    leave_first(&mut ring, lit);
    assert_eq!(rt; ring.first(lit), None);
    assert_eq!(rt; ring.first(to), Some((0, 0)));
    assert_eq!(rt; ring.next(0, 0), None);
    assert_eq!(rt; ring.first(literal(&rt, 2)), None);
    assert!(rt; ring.reserve(2, 2_147_483_648).is_err());
    Ok(())
}

// Empties the lists.
fn clear(ring: &mut WatchRing)
    ensures empty { (other : ℕ) → list_of ring.new other ≡ [] }
    ensures vars { ring.new.vars ≡ ring.old.vars }
    ensures clauses { ring.new.clauses ≡ ring.old.clauses }
{
    ring.clear();
}

#[test]
fn cleared_lists_are_joined_again(rt: HostRuntime) -> Result<(), Fail> {
    let lit = literal(&rt, 1);
    let other = literal(&rt, -2);
    let mut ring = WatchRing::new(rt.alloc());
    ring.reserve(2, 2)?;
    join_two(&mut ring, lit);
    clear(&mut ring);
    assert_eq!(rt; ring.first(lit), None);
    assert_eq!(rt; ring.first(other), None);
    join_two(&mut ring, other);
    assert_eq!(rt; ring.first(lit), None);
    assert_eq!(rt; ring.first(other), Some((1, 0)));
    assert_eq!(rt; ring.next(1, 0), Some((0, 0)));
    assert_eq!(rt; ring.next(0, 0), None);
    Ok(())
}

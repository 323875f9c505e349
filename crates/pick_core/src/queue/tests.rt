//! Queues over a trail, call by call.

ghost use Rattle.std.specs.Prelude.{◌≡◌, ℕ, ◌≤◌, List};
ghost use Rattle.pick_core.specs.Assigned.{AreAssigned};

use super::*;
use sat_base::Lit;
use std::process::Abort;
use std::test::Fail;
use trail_core::Truth;

// Makes a literal of the variables 1 to 5 true.
fn assign(rt: &impl Abort, trail: &mut Trail, number: i32)
    requires { 5 ≤ trail.old.vars }
    ensures vars { trail.new.vars ≡ trail.old.vars }
    ensures assigned { (vars : List ℕ) → AreAssigned trail.old.entries vars
        → AreAssigned trail.new.entries vars }
{
    let lit = Lit::of(number).expect(rt, "a literal");
    assert!(rt; lit.var() <= 5);
    match trail.truth(lit) {
        Truth::Unassigned => trail.assign(lit, None),
        _ => panic!(rt; "assigned already"),
    }
}

#[test]
fn what_was_bumped_comes_first(rt: HostRuntime) -> Result<(), Fail> {
    let mut trail = Trail::new(rt.alloc());
    trail.reserve(5)?;
    let mut queue = Queue::new(rt.alloc());
    queue.reserve(3, true)?;
    assert_eq!(rt; queue.next_free(&trail), Some(3));
    queue.bump(1);
    assert_eq!(rt; queue.next_free(&trail), Some(1));
    trail.open_level();
    assign(&rt, &mut trail, 1);
    assert_eq!(rt; queue.next_free(&trail), Some(3));
    assign(&rt, &mut trail, -3);
    assign(&rt, &mut trail, 2);
    assert_eq!(rt; queue.next_free(&trail), None);
    trail.back_to(0);
    queue.rewind();
    assert_eq!(rt; queue.next_free(&trail), Some(1));
    Ok(())
}

#[test]
fn variables_enter_at_the_end_or_at_the_front(rt: HostRuntime) -> Result<(), Fail> {
    let mut trail = Trail::new(rt.alloc());
    trail.reserve(5)?;
    let mut queue = Queue::new(rt.alloc());
    queue.reserve(3, true)?;
    queue.reserve(5, false)?;
    assert_eq!(rt; queue.next_free(&trail), Some(3));
    assign(&rt, &mut trail, 1);
    assign(&rt, &mut trail, 2);
    assign(&rt, &mut trail, 3);
    assert_eq!(rt; queue.next_free(&trail), Some(4));
    assign(&rt, &mut trail, 4);
    assert_eq!(rt; queue.next_free(&trail), Some(5));
    queue.reserve(5, true)?;
    queue.bump(4);
    assert_eq!(rt; queue.next_free(&trail), Some(5));
    Ok(())
}

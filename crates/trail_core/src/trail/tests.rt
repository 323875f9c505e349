//! The trail, call by call.

ghost use Rattle.std.specs.Prelude.{◌≡◌, ◌≤◌};

use super::*;
use std::process::Abort;
use std::test::Fail;

fn literal(rt: &impl Abort, number: i32) -> Lit {
    Lit::of(number).expect(rt, "a literal")
}

// Assigns a literal of the variables 1 to 6 that is unassigned.
fn assign(rt: &impl Abort, trail: &mut Trail, number: i32, reason: Option<usize>)
    requires { 6 ≤ trail.old.vars }
    ensures { trail.new.vars ≡ trail.old.vars }
{
    let lit = literal(rt, number);
    assert!(rt; lit.var() <= 6);
    match trail.truth(lit) {
        Truth::Unassigned => trail.assign(lit, reason),
        _ => panic!(rt; "assigned already"),
    }
}

#[test]
fn literals_come_and_go_by_levels(rt: HostRuntime) -> Result<(), Fail> {
    let mut trail = Trail::new(rt.alloc());
    assert_eq!(rt; trail.value(literal(&rt, 1)), None);
    trail.reserve(6)?;
    assign(&rt, &mut trail, 1, None);
    assert!(rt; trail.depth() < 6);
    trail.open_level();
    assign(&rt, &mut trail, -2, None);
    assign(&rt, &mut trail, 3, Some(7));
    let rows = [
        (1, Some(true), Some(0), None, Some(0)),
        (2, Some(false), Some(1), None, Some(1)),
        (3, Some(true), Some(1), Some(7), Some(2)),
        (4, None, None, None, None),
        (7, None, None, None, None),
    ];
    for (var, value, level, reason, place) in rows {
        assert_eq!(rt; trail.value(literal(&rt, var as i32)), value, "of {var}");
        assert_eq!(rt; trail.level(var), level, "of {var}");
        assert_eq!(rt; trail.reason(var), reason, "of {var}");
        assert_eq!(rt; trail.place(var), place, "of {var}");
    }
    assert_eq!(rt; trail.lits().len(), 3);
    assert_eq!(rt; trail.looked(), 0);
    assert!(rt; trail.lits().len() >= 2);
    trail.mark(2);
    assert_eq!(rt; trail.looked(), 2);
    trail.back_to(0);
    assert_eq!(rt; trail.depth(), 0);
    assert_eq!(rt; trail.lits().len(), 1);
    assert_eq!(rt; trail.looked(), 1);
    assert_eq!(rt; trail.value(literal(&rt, -2)), None);
    assert_eq!(rt; trail.value(literal(&rt, -1)), Some(false));
    Ok(())
}

#[test]
fn a_trail_is_complete_once_each_variable_is_assigned(rt: HostRuntime) -> Result<(), Fail> {
    let mut trail = Trail::new(rt.alloc());
    assert!(rt; trail.is_complete());
    trail.reserve(6)?;
    assert!(rt; !trail.is_complete());
    assert!(rt; trail.depth() < 6);
    trail.open_level();
    assign(&rt, &mut trail, 4, None);
    assign(&rt, &mut trail, -1, None);
    assign(&rt, &mut trail, 6, None);
    assign(&rt, &mut trail, 2, None);
    assign(&rt, &mut trail, -5, None);
    assert!(rt; !trail.is_complete());
    assign(&rt, &mut trail, 3, None);
    assert!(rt; trail.is_complete());
    trail.back_to(0);
    assert!(rt; !trail.is_complete());
    Ok(())
}

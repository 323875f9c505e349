//! Scores over a trail, call by call.

ghost use Rattle.std.specs.Prelude.{◌≡◌, ℕ, ◌≤◌};
ghost use Rattle.pick_core.specs.Scores.{FreeWait, Waits, ScoresView};

use super::*;
use sat_base::Lit;
use std::process::Abort;
use std::test::Fail;
use trail_core::Truth;

// Makes a literal of the variables 1 to 5 true.
fn assign(rt: &impl Abort, trail: &mut Trail, number: i32)
    requires { 5 ≤ trail.old.vars }
    ensures vars { trail.new.vars ≡ trail.old.vars }
    ensures wait { (view : ScoresView) → FreeWait trail.old.entries view
        → FreeWait trail.new.entries view }
{
    let lit = Lit::of(number).expect(rt, "a literal");
    assert!(rt; lit.var() <= 5);
    match trail.truth(lit) {
        Truth::Unassigned => trail.assign(lit, None),
        _ => panic!(rt; "assigned already"),
    }
}

// Puts the variables 1 to 3 back, where there are no others.
fn put_all_back(scores: &mut Scores)
    requires { scores.old.vars ≡ 3 }
    ensures vars { scores.new.vars ≡ 3 }
    ensures wait { (var : ℕ) → 1 ≤ var → var ≤ 3 → Waits scores.new var }
{
    scores.put_back(1);
    scores.put_back(2);
    scores.put_back(3);
}

#[test]
fn the_best_score_comes_first(rt: HostRuntime) -> Result<(), Fail> {
    let mut trail = Trail::new(rt.alloc());
    trail.reserve(5)?;
    let mut scores = Scores::new(rt.alloc());
    scores.reserve(3, true)?;
    assert_eq!(rt; scores.next_free(&trail), Some(3));
    scores.bump(1);
    assert_eq!(rt; scores.next_free(&trail), Some(1));
    trail.open_level();
    assign(&rt, &mut trail, 1);
    assert_eq!(rt; scores.next_free(&trail), Some(3));
    assign(&rt, &mut trail, -3);
    assign(&rt, &mut trail, 2);
    assert_eq!(rt; scores.next_free(&trail), None);
    trail.back_to(0);
    put_all_back(&mut scores);
    assert_eq!(rt; scores.next_free(&trail), Some(1));
    Ok(())
}

#[test]
fn of_equal_scores_the_one_nearer_the_end_comes_first(rt: HostRuntime) -> Result<(), Fail> {
    let mut trail = Trail::new(rt.alloc());
    trail.reserve(5)?;
    let mut scores = Scores::new(rt.alloc());
    scores.reserve(3, true)?;
    scores.reserve(5, false)?;
    assert_eq!(rt; scores.next_free(&trail), Some(3));
    assign(&rt, &mut trail, 1);
    assign(&rt, &mut trail, 2);
    assign(&rt, &mut trail, 3);
    assert_eq!(rt; scores.next_free(&trail), Some(4));
    assign(&rt, &mut trail, 4);
    assert_eq!(rt; scores.next_free(&trail), Some(5));
    Ok(())
}

// Decays so often.
fn decay(scores: &mut Scores, times: u32)
    ensures vars { scores.new.vars ≡ scores.old.vars }
    ensures wait { (var : ℕ) → Waits scores.old var → Waits scores.new var }
{
    for _ in 0..times {
        scores.decay();
    }
}

// The variable that comes first after so many decays, two bumps of 1, more decays, and one of 2.
fn first_after(rt: &HostRuntime, before: u32, between: u32) -> Result<Option<u32>, Fail> {
    let trail = Trail::new(rt.alloc());
    let mut scores = Scores::new(rt.alloc());
    scores.reserve(3, true)?;
    decay(&mut scores, before);
    scores.bump(1);
    scores.bump(1);
    decay(&mut scores, between);
    scores.bump(2);
    put_all_back(&mut scores);
    Ok(scores.next_free(&trail))
}

// The increment is scaled down the first time after 458 decays.
const ROWS: [(u32, u32, u32); 8] = [
    (0, 0, 1),
    (0, 11, 1),
    (0, 12, 2),
    (452, 11, 1),
    (452, 12, 2),
    (1_000, 11, 1),
    (1_000, 12, 2),
    (0, 1_000, 2),
];

#[test]
fn late_bumps_count_for_more(rt: HostRuntime) -> Result<(), Fail> {
    for (before, between, var) in ROWS {
        assert_eq!(rt;
            first_after(&rt, before, between)?,
            Some(var),
            "after {before}, {between}"
        );
    }
    Ok(())
}

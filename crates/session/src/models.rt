//! Assignments from trails.

ghost use Rattle.std.specs.Prelude.{◌≡◌, ℕ, ◌+◌, ◌*◌, ◌≤◌, length, IfOk, MatchBool, IfSome, IfNone};
ghost use Rattle.trail_core.specs.Trail.{lits_of};
ghost use Rattle.trail_core.specs.UnderTrail.{IsTrueLit};
ghost use Rattle.session.specs.Models.{IsAssignmentOf};

use crate::moves::is_true;
use sat_base::{Assign, Lit};
use std::alloc::{AllocError, Global};
use trail_core::Trail;

/// The assignment of the variables 1 to `vars` under which the literals of the trail are true; a
/// variable that isn't assigned is false.
pub(crate) fn assignment(alloc: Global, trail: &Trail, vars: u32) -> Result<Assign, AllocError>
    requires { vars ≤ 8388607 }
    ensures { IfOk result (λ values. IsAssignmentOf (lits_of trail.now.entries) vars values) }
{
    let mut values = Vec::with_capacity(alloc, vars as usize)?;
    for var in 1..vars + 1 {
        values.push(is_true(trail, positive(var)))?;
    }
    Ok(Assign::of(values))
}

// The positive literal of a variable.
fn positive(var: u32) -> Lit
    requires low { 1 ≤ var }
    requires high { var ≤ 8388607 }
    ensures { result ≡ 2 * var }
{
    Lit::of(var as i32).unwrap()
}

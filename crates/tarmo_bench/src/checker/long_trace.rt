//! A trace that is long and ok.

ghost use Rattle.std.specs.Prelude.{◌≡◌, ◌≤◌, ◌<◌, []};

use sat_base::{Clause, Lit, Ref};
use std::alloc::{AllocError, Global};
use trace_core::{Checker, Hints, Step};

/// The greatest number of steps.
pub const MOST: u32 = 1_000_000;

// How many hints a step has.
const WIDTH: u32 = 10;

// The clause that the first variable implies the second one.
fn implication(alloc: Global, first: u32, second: u32) -> Result<Clause, AllocError>
    requires first { first < 2000000 }
    requires second { second < 2000000 }
{
    let mut lits = Vec::with_capacity(alloc, 2)?;
    if let Some(lit) = Lit::of(-(first as i32)) {
        lits.push(lit)?;
    }
    if let Some(lit) = Lit::of(second as i32) {
        lits.push(lit)?;
    }
    Clause::from_lits(alloc, &lits)
}

/// Adds the implications from variable 1 to 2, from 2 to 3 and so on, as many as there are steps
/// and ten more.
pub fn add_inputs(alloc: Global, checker: &mut Checker, count: u32) -> Result<(), AllocError>
    requires few { count ≤ MOST }
    requires inputs { checker.old.inputs ≡ [] }
    requires steps { checker.old.steps ≡ [] }
{
    for variable in 1..count + WIDTH + 1 {
        checker.add_input(&implication(alloc, variable, variable + 1)?, 1)?;
    }
    Ok(())
}

// The step from a variable to the tenth after it.
fn step(alloc: Global, variable: u32) -> Result<Step, AllocError>
    requires { variable ≤ MOST }
{
    let mut hints = Vec::with_capacity(alloc, WIDTH as usize)?;
    for i in 0..WIDTH {
        hints.push(Ref::Input(variable + i))?;
    }
    Ok(Step {
        clause: implication(alloc, variable, variable + WIDTH)?,
        hints: Hints::of(hints),
        tag: 1,
    })
}

/// So many steps, which begin at variables far from one another.
pub fn steps(alloc: Global, count: u32) -> Result<Vec<Step>, AllocError>
    requires { count ≤ MOST }
{
    let mut steps = Vec::new(alloc);
    for k in 0..count {
        let variable = (u64::from(k) * 7919 % u64::from(count)) as u32 + 1;
        steps.push(step(alloc, variable)?)?;
    }
    Ok(steps)
}

/// Checks the steps in order, and tells whether all are ok.
pub fn are_ok(checker: &mut Checker, steps: &[Step]) -> Result<bool, AllocError> {
    for step in steps {
        if !checker.check(step)? {
            return Ok(false);
        }
    }
    Ok(true)
}

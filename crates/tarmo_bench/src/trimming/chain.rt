//! A derivation in which each step rests on the one before.

ghost use Rattle.std.specs.Prelude.{◌≡◌, ◌+◌, ◌^◌, ◌<◌, ◌≤◌, List, ℕ, [], IsTrue, IfOk, IsSome};
ghost use Rattle.std.specs.Prelude.{All, length};
ghost use Rattle.trace_core.specs.Known.{item_at};
ghost use Rattle.trace_core.specs.declared.derivation.Step.{Step};
ghost use Rattle.trace_trim.specs.Names.{CiteEarlierSteps};
ghost use Rattle.trace_text.specs.Text.{CiteEarlier, IsHintBelow};

use sat_base::{Clause, Lit, Ref};
use std::alloc::{AllocError, Global};
use std::sync::Arc;
use step_table::Steps;
use trace_core::{Hints, Packet, Step};

pub const MOST: u32 = 1_000_000;

// The clause of one variable.
fn unit(alloc: Global, var: u32) -> Result<Clause, AllocError>
    requires { var < 2 ^ 31 }
{
    let mut lits = Vec::new(alloc);
    if let Some(lit) = Lit::of(var as i32) {
        lits.push(lit)?;
    }
    Clause::from_lits(alloc, &lits)
}

/// The steps, so many of them.
pub fn steps(alloc: Global, count: u32) -> Result<Vec<Step>, AllocError>
    requires { count ≤ 1000000 }
{
    let mut steps = Vec::with_capacity(alloc, count as usize)?;
    for i in 1..=count {
        let before = if i == 1 {
            Ref::Input(1)
        } else {
            Ref::Own(i as u64 - 1)
        };
        let hints = [before, Ref::Input(i + 1)].to_vec(alloc)?;
        steps.push(Step {
            clause: unit(alloc, i + 1)?,
            hints: Hints::of(hints),
            tag: 1,
        })?;
    }
    Ok(steps)
}

// Whether the hint names one of so many inputs, or one of so many steps.
fn is_below(inputs: u64, steps: u64, hint: Ref) -> bool
    ensures { IsTrue result → IsHintBelow inputs steps hint }
{
    match hint {
        Ref::Input(number) => number > 0 && number as u64 <= inputs,
        Ref::Shared { .. } => false,
        Ref::Own(number) => number > 0 && number <= steps,
    }
}

fn are_below(inputs: u64, steps: u64, hints: &[Ref]) -> bool
    ensures { IsTrue result → All (IsHintBelow inputs steps) hints.now }
{
    for hint in hints {
        if !is_below(inputs, steps, *hint) {
            return false;
        }
    }
    true
}

// Whether each hint names an input or an earlier step.
fn cite_earlier(inputs: u64, steps: &[Step]) -> bool
    ensures { IsTrue result → CiteEarlier inputs 0 steps.now }
{
    for (index, step) in steps.iter().enumerate() {
        if !are_below(inputs, index as u64, step.hints.items()) {
            return false;
        }
    }
    true
}

fn cite_earlier_steps(inputs: u64, own: &[Step]) -> bool
    ensures { IsTrue result → CiteEarlierSteps [] own.now }
{
    cite_earlier(inputs, own)
}

/// The steps that the last one rests on, where these are the steps of the table; nothing where a
/// hint looks ahead.
pub fn trimmed(
    alloc: Global,
    count: u32,
    steps: &[Step],
    own: &Steps,
) -> Result<Vec<Step>, AllocError>
    requires count { count ≤ 1000000 }
    requires own { own.now ≡ steps.now }
{
    let packets: [Arc<Packet>; 0] = [];
    let earlier = cite_earlier_steps(count as u64 + 1, steps);
    if !earlier || steps.is_empty() {
        return Ok(Vec::new(alloc));
    }
    trace_trim::trim(alloc, &packets, own, own.len() as u64)
}

/// The lines of the steps; nothing where a hint looks ahead.
pub fn printed(alloc: Global, count: u32, steps: &[Step]) -> Result<Vec<u8>, AllocError>
    requires { count ≤ 1000000 }
{
    let inputs = count as u64 + 1;
    let earlier = cite_earlier(inputs, steps);
    if !earlier {
        return Ok(Vec::new(alloc));
    }
    trace_text::print(alloc, inputs, steps)
}

//! What was learnt in an attempt.

ghost use Rattle.std.specs.Prelude.{◌≡◌, All, IfOk, IsSome};
ghost use Rattle.trace_core.specs.Known.{item_at};
ghost use Rattle.entry_core.specs.Right.{AreLiterals};
ghost use Rattle.worker_loop.specs.Asked.{clause_at, clauses_at};

use entry_core::Clauses;
use std::alloc::{AllocError, Global};
use step_table::{StepRef, Steps};

/// Copies of the clauses of the own steps of these numbers, counted from 1, in order.
pub(crate) fn copies_of(
    alloc: Global,
    steps: &Steps,
    numbers: &[u64],
) -> Result<Clauses, AllocError>
    requires { All (λ number. IsSome (item_at steps.now number)) numbers.now }
    ensures { IfOk result (λ clauses. clauses ≡ clauses_at steps.now numbers.now) }
{
    let mut clauses = Vec::with_capacity(alloc, numbers.len())?;
    for number in numbers {
        clauses.push(own_step(steps, *number).clause(alloc)?)?;
    }
    Ok(Clauses::of(clauses))
}

/// The step of that number.
pub(crate) fn own_step(steps: &Steps, number: u64) -> StepRef<'_>
    requires { IsSome (item_at steps.now number) }
    ensures clause { result.clause ≡ clause_at steps.now number }
    ensures literals { AreLiterals result.clause }
{
    let step = steps.step(number as usize - 1);
    // Every clause is of literals.
    let _ = step.lits();
    step
}

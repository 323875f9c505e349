//! Rounds of an attempt.

ghost use Rattle.std.specs.Prelude.{◌≡◌, ◌++◌, ◌<◌, ◌≤◌, drop, length, All, IfOk, OnOk};
ghost use Rattle.entry_core.specs.Right.{AreLiterals};
ghost use Rattle.session.specs.Solving.{Keeps};
ghost use Rattle.worker_loop.specs.Asked.{clauses_at};
ghost use Rattle.worker_loop.specs.Fits.{AreLearnt};
ghost use Rattle.worker_loop.specs.Rounds.{MakesRound};

use crate::attempt::Attempt;
use crate::bench::Bench;
use crate::lessons::own_step;
use session::{Round, Session};
use std::alloc::AllocError;

// At most so many clauses are learnt in a round.
const ROUND: u64 = 256;

/// One round of at most 256 learnt clauses, and never more than the budget leaves, which the
/// attempt lists besides.
pub(crate) fn make_round(
    bench: &mut Bench,
    attempt: &mut Attempt,
    budget: u64,
) -> Result<Round, AllocError>
    requires left { length attempt.old.learnt.items < budget }
    ensures round { IfOk result (MakesRound
        bench.old.session.solver bench.new.session.solver attempt.old attempt.new budget) }
    ensures learnt { OnOk result
        (AreLearnt bench.old.session.solver attempt.old.cube attempt.old.learnt.items
        → AreLearnt bench.new.session.solver attempt.new.cube attempt.new.learnt.items) }
    ensures keeps { Keeps bench.old.session.solver bench.new.session.solver }
    ensures bench { bench.new ≡ record bench.old { session = bench.new.session } }
{
    // What every session keeps is known before the round and after it.
    let _ = bench.session.steps();
    let before = bench.session.learnt().len();
    let limit = ROUND.min(budget - attempt.learnt.len() as u64);
    let round = bench.session.solve(&attempt.cube, limit)?;
    list_learnt(&bench.session, before, &mut attempt.learnt)?;
    let _ = bench.session.steps();
    Ok(round)
}

/// Lists the own steps that the session learnt behind the first `before`, in order.
fn list_learnt(session: &Session, before: usize, learnt: &mut Vec<u64>) -> Result<(), AllocError>
    requires { before ≤ length session.now.solver.learnt }
    ensures listed { OnOk result
        (learnt.new.items ≡ learnt.old.items ++ drop before session.now.solver.learnt) }
    ensures literals { OnOk result
        (All AreLiterals
        (clauses_at session.now.solver.steps (drop before session.now.solver.learnt))) }
{
    let steps = session.steps();
    let numbers = &session.learnt()[before..];
    for number in numbers {
        // Its clause is of literals, which is a rule of spent lists.
        let _ = own_step(steps, *number);
        learnt.push(*number)?;
    }
    Ok(())
}

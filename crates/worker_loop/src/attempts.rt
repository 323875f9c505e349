//! Attempts.

ghost use Rattle.std.specs.Prelude.{◌≡◌, ◌<◌, ◌≤◌, Bool, None, length, List, IfOk, IfSome, IsSome};
ghost use Rattle.std.specs.Prelude.{OnOk};
ghost use Rattle.trace_core.specs.Known.{item_at};
ghost use Rattle.entry_core.specs.declared.entries.Entry.{Entry};
ghost use Rattle.session.specs.declared.rounds.Round.TheVariants.{Paused};
ghost use Rattle.session.specs.Solving.{Keeps};
ghost use Rattle.worker_loop.specs.Asked.{IsEndOver};
ghost use Rattle.worker_loop.specs.Fits.{AreLearnt, FitsAttempt, FitsLegal};
ghost use Rattle.worker_loop.specs.Rounds.{HasLearntOn, IsOfLearnt, IsOfRound, IsRightRound};
ghost use Rattle.worker_loop.specs.Rounds.{IsRightWhereRefuted};

use crate::attempt::Attempt;
use crate::bench::Bench;
use crate::ends::End;
use crate::lessons::copies_of;
use crate::rounds::make_round;
use entry_core::Answer;
use sat_base::Cube;
use session::Round;
use std::alloc::{AllocError, Global};
use std::sync::Arc;
use trace_core::Steps;
use trace_trim::trim;

/// Rounds until the attempt has its answer, with its trace where traces are kept, or has learnt as
/// many clauses as the budget allows.
pub(crate) fn pursue(
    alloc: Global,
    bench: &mut Bench,
    attempt: &mut Attempt,
    budget: u64,
    traces: bool,
) -> Result<End, AllocError>
    requires left { length attempt.old.learnt.items < budget }
    requires fits { FitsLegal bench.old }
    requires learnt { AreLearnt bench.old.session.solver attempt.old.cube attempt.old.learnt.items }
    ensures end { IfOk result
        (IsEndOver traces bench.old.session.solver.inputs attempt.old.cube budget) }
    ensures learnt { OnOk result (HasLearntOn
        bench.old.session.solver bench.new.session.solver attempt.old attempt.new budget) }
    ensures spent { IfOk result (IsOfLearnt bench.new.session.solver attempt.new) }
    ensures fits { OnOk result
        ((journal : List Entry) → FitsAttempt bench.old attempt.old journal
        → FitsAttempt bench.new attempt.new journal) }
    ensures keeps { Keeps bench.old.session.solver bench.new.session.solver }
    ensures bench { bench.new ≡ record bench.old { session = bench.new.session } }
{
    'rounds: loop {
        let round = make_round(bench, attempt, budget)?;
        match end_of(alloc, bench, attempt, budget, traces, round)? {
            Some(end) => return Ok(end),
            None => {}
        }
    }
}

/// The end of an attempt after a round, none where it goes on: an answer, with its trace where
/// traces are kept, or copies of exactly the clauses that it learnt, where these are as many as the
/// budget allows.
pub(crate) fn end_of(
    alloc: Global,
    bench: &Bench,
    attempt: &Attempt,
    budget: u64,
    traces: bool,
    round: Round,
) -> Result<Option<End>, AllocError>
    requires fits { FitsLegal bench.now }
    requires learnt { AreLearnt bench.now.session.solver attempt.now.cube attempt.now.learnt.items }
    requires few { length attempt.now.learnt.items ≤ budget }
    requires right { IsRightRound bench.now.session.solver attempt.now.cube round }
    ensures end { IfOk result
        (λ end. IfSome end
        (IsEndOver traces bench.now.session.solver.inputs attempt.now.cube budget)) }
    ensures learnt { IfOk result
        (λ end. IfSome end (IsOfLearnt bench.now.session.solver attempt.now)) }
    ensures goes_on { IfOk result (λ end. end ≡ None → length attempt.now.learnt.items < budget) }
    ensures paused { IfOk result (λ end. end ≡ None → round ≡ Paused) }
    ensures of_round { IfOk result (IsOfRound attempt.now budget round) }
{
    match round {
        Round::Model(model) => {
            let answer = Arc::new(alloc, Answer::Model(model))?;
            Ok(Some(End::Answered(answer)))
        }
        Round::Refuted(part, number) => {
            let answer = refutation(alloc, bench, part, number, traces)?;
            Ok(Some(End::Answered(Arc::new(alloc, answer)?)))
        }
        Round::Paused => spent(alloc, bench, attempt, budget),
    }
}

// Copies of exactly the clauses that the attempt learnt, where these are as many as the budget
// allows.
fn spent(
    alloc: Global,
    bench: &Bench,
    attempt: &Attempt,
    budget: u64,
) -> Result<Option<End>, AllocError>
    requires learnt { AreLearnt bench.now.session.solver attempt.now.cube attempt.now.learnt.items }
    requires few { length attempt.now.learnt.items ≤ budget }
    ensures end { (traces : Bool) → IfOk result
        (λ end. IfSome end
        (IsEndOver traces bench.now.session.solver.inputs attempt.now.cube budget)) }
    ensures learnt { IfOk result
        (λ end. IfSome end (IsOfLearnt bench.now.session.solver attempt.now)) }
    ensures goes_on { IfOk result (λ end. end ≡ None → length attempt.now.learnt.items < budget) }
    ensures of_round { IfOk result (IsOfRound attempt.now budget Paused) }
{
    if (attempt.learnt.len() as u64) < budget {
        return Ok(None);
    }
    let copies = copies_of(alloc, bench.session.steps(), &attempt.learnt)?;
    Ok(Some(End::Spent(Arc::new(alloc, copies)?)))
}

// The refuted part, with its trace where traces are kept: what the own step of its negation rests
// on, out of the packets that were read and the session's own steps. It takes the time of those
// steps and hints, times the logarithm of their number, and none for the other steps of the
// session. Where traces aren't kept, nothing is trimmed: there is one, since the own steps are ok.
fn refutation(
    alloc: Global,
    bench: &Bench,
    part: Cube,
    number: u64,
    traces: bool,
) -> Result<Answer, AllocError>
    requires fits { FitsLegal bench.now }
    requires there { IsSome (item_at bench.now.session.solver.steps number) }
    ensures { IfOk result (IsRightWhereRefuted traces bench.now.session.solver part number) }
{
    // What every session keeps is told with its steps.
    let own = bench.session.steps();
    if !traces {
        return Ok(Answer::Refuted(part, Steps::of(Vec::new(alloc))));
    }
    let steps = trim(alloc, &bench.packets, own, number)?;
    Ok(Answer::Refuted(part, Steps::of(steps)))
}

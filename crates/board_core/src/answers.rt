//! Where the journal has the answer of a settled job.

ghost use Rattle.std.specs.Prelude.{◌≡◌, Some, IsSome, IfOk};
ghost use Rattle.entry_core.specs.Outcomes.{outcome_of};
ghost use Rattle.entry_core.specs.declared.answers.Verdict.{Verdict};
ghost use Rattle.entry_core.specs.declared.answers.Verdict.TheVariants as verdict;
ghost use Rattle.board_core.specs.declared.index.Ending.TheVariants as ending;
ghost use Rattle.board_core.specs.Index.{verdict_in};
ghost use Rattle.board_core.specs.Replies.{IsSame};

use crate::index::Ending;
use entry_core::{Answer, Entry, Event, Outcome, Verdict};
use std::alloc::AllocError;
use std::sync::Arc;

/// The answer of the entry at a place, counted from 0.
fn answer_at(journal: &[Entry], place: usize) -> &Arc<Answer>
    requires { IsSome (verdict_in journal.now (ending.Answered place)) }
    ensures { verdict_in journal.now (ending.Answered place) ≡ Some (verdict.Answered result.now) }
{
    match journal.get(place) {
        Some(entry) => match &entry.event {
            Event::Decided { answer, .. } => answer,
            _ => unreachable!(),
        },
        None => unreachable!(),
    }
}

/// The outcome of a job that was settled like this.
pub(crate) fn outcome_in(journal: &[Entry], how: Ending) -> Outcome
    requires { IsSome (verdict_in journal.now how) }
    ensures { (found : Verdict) → verdict_in journal.now how ≡ Some found
        → result ≡ outcome_of found }
{
    match how {
        Ending::Answered(place) => answer_at(journal, place).outcome(),
        Ending::Cancelled(by) => Outcome::Cancelled(by),
        Ending::Spent => Outcome::Spent,
        Ending::Starved => Outcome::Starved,
    }
}

/// The verdict of a job that was settled like this.
pub(crate) fn verdict_of(journal: &[Entry], how: Ending) -> Result<Verdict, AllocError>
    requires { IsSome (verdict_in journal.now how) }
    ensures { IfOk result
        (λ given. (found : Verdict) → verdict_in journal.now how ≡ Some found
        → IsSame found given) }
{
    Ok(match how {
        Ending::Answered(place) => Verdict::Answered(answer_at(journal, place).clone()?),
        Ending::Cancelled(by) => Verdict::Cancelled(by),
        Ending::Spent => Verdict::Spent,
        Ending::Starved => Verdict::Starved,
    })
}

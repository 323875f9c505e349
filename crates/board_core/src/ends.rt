//! The calls that end an attempt. None of them takes memory.

ghost use Rattle.std.specs.Prelude.{◌≡◌, ◌&&◌, None, IsSome, OnOk, OnErr, IfErr, nat_le};
ghost use Rattle.std.specs.Prelude.{if◌then◌else◌, Some};
ghost use Rattle.std.specs.Arc.{arc_value};
ghost use Rattle.entry_core.specs.Settled.{settled, is_model};
ghost use Rattle.entry_core.specs.Right.{IsRightAnswer, IsSpentFor};
ghost use Rattle.entry_core.specs.declared.entries.Event.TheVariants as event;
ghost use Rattle.board_core.specs.declared.index.Ending.TheVariants as ending;
ghost use Rattle.board_core.specs.State.{entered};
ghost use Rattle.board_core.specs.Replies.{IsOwn, HasOutcome, job_at};

use crate::answers::outcome_in;
use crate::board::Board;
use crate::faults::Late;
use crate::index::{Ending, JobState, newly_settled};
use entry_core::{Answer, Clauses, Entry, Event};
use std::sync::Arc;

impl Board {
    /// Ends an attempt that used up its budget on these clauses.
    pub fn spend(&mut self, caller: u32, attempt: u32, learnt: Arc<Clauses>) -> Result<(), Late>
        requires own { IsOwn self.old caller attempt }
        requires spent { IsSpentFor self.old.journal
            (job_at self.old attempt) self.old.rules.conflicts (arc_value learnt) }
        ensures ok { OnOk result (self.new ≡ entered self.old caller (event.Spent attempt learnt)) }
        ensures in_time { OnOk result
            (settled self.old.rules self.old.journal (job_at self.old attempt) ≡ None) }
        ensures late { IfErr result (λ late. HasOutcome self.old (job_at self.old attempt) late.0) }
        ensures err { OnErr result (self.new ≡ self.old) }
    {
        let own = self.index.attempted(attempt);
        if let Some(how) = own.state.ending {
            return Err(Late(outcome_in(&self.journal, how)));
        }
        self.journal.push_reserved(Entry {
            caller,
            event: Event::Spent { attempt, learnt },
        });
        let spent = own.state.spent + 1;
        let ending = ending_by_budget(spent, self.rules.attempts);
        let after = JobState {
            open_now: own.state.open_now - 1,
            spent,
            ending,
        };
        self.index.end(self.rules.attempts, own.job, after);
        self.index.settled += newly_settled(ending);
        Ok(())
    }

    /// Ends an attempt with an answer. Under the rule `first` a model cancels every later job; no
    /// job is looked at for two models.
    pub fn decide(&mut self, caller: u32, attempt: u32, answer: Arc<Answer>) -> Result<(), Late>
        requires own { IsOwn self.old caller attempt }
        requires right { IsRightAnswer self.old.rules.traces self.old.journal
            (job_at self.old attempt) (arc_value answer) }
        ensures ok { OnOk result
            (self.new ≡ entered self.old caller (event.Decided attempt answer)) }
        ensures in_time { OnOk result
            (settled self.old.rules self.old.journal (job_at self.old attempt) ≡ None) }
        ensures late { IfErr result (λ late. HasOutcome self.old (job_at self.old attempt) late.0) }
        ensures err { OnErr result (self.new ≡ self.old) }
    {
        let own = self.index.attempted(attempt);
        let place = self.journal.len();
        if let Some(how) = own.state.ending {
            return Err(Late(outcome_in(&self.journal, how)));
        }
        let cancels = cancels_later(self.rules.first, &answer);
        self.journal.push_reserved(Entry {
            caller,
            event: Event::Decided { attempt, answer },
        });
        let after = JobState {
            open_now: own.state.open_now - 1,
            ending: Some(Ending::Answered(place)),
            ..own.state
        };
        self.index.end(self.rules.attempts, own.job, after);
        self.index.settled += 1;
        if !cancels {
            return Ok(());
        }
        self.index.overtake(self.rules.attempts, own.job);
        Ok(())
    }

    /// Ends an attempt that found no memory.
    pub fn starve(&mut self, caller: u32, attempt: u32) -> Result<(), Late>
        requires own { IsOwn self.old caller attempt }
        ensures ok { OnOk result (self.new ≡ entered self.old caller (event.Starved attempt)) }
        ensures in_time { OnOk result
            (settled self.old.rules self.old.journal (job_at self.old attempt) ≡ None) }
        ensures late { IfErr result (λ late. HasOutcome self.old (job_at self.old attempt) late.0) }
        ensures err { OnErr result (self.new ≡ self.old) }
    {
        let own = self.index.attempted(attempt);
        if let Some(how) = own.state.ending {
            return Err(Late(outcome_in(&self.journal, how)));
        }
        self.journal.push_reserved(Entry {
            caller,
            event: Event::Starved { attempt },
        });
        let after = JobState {
            open_now: own.state.open_now - 1,
            ending: Some(Ending::Starved),
            ..own.state
        };
        self.index.end(self.rules.attempts, own.job, after);
        self.index.settled += 1;
        Ok(())
    }

    /// Ends an attempt whose job is settled.
    pub fn drop_attempt(&mut self, caller: u32, attempt: u32)
        requires own { IsOwn self.old caller attempt }
        requires settled { IsSome
            (settled self.old.rules self.old.journal (job_at self.old attempt)) }
        ensures { self.new ≡ entered self.old caller (event.Dropped attempt) }
    {
        let own = self.index.attempted(attempt);
        self.journal.push_reserved(Entry {
            caller,
            event: Event::Dropped { attempt },
        });
        let after = JobState {
            open_now: own.state.open_now - 1,
            ..own.state
        };
        self.index.end(self.rules.attempts, own.job, after);
    }
}

// How a job stands settled after so many spent attempts.
fn ending_by_budget(spent: u32, most: u32) -> Option<Ending>
    ensures { result ≡ (if nat_le most spent then Some ending.Spent else None) }
{
    if spent >= most {
        Some(Ending::Spent)
    } else {
        None
    }
}

// Whether an answer cancels the later jobs: under the rule `first` a model does.
fn cancels_later(first: bool, answer: &Answer) -> bool
    ensures { result ≡ (first && is_model answer.now) }
{
    match answer {
        Answer::Model(_) => first,
        Answer::Refuted(_, _) => false,
    }
}

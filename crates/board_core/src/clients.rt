//! The calls of clients.

ghost use Rattle.std.specs.Prelude.{◌≡◌, ◌+◌, Some, min, IfOk, OnOk, OnErr, IfErr};
ghost use Rattle.std.specs.Arc.{arc_value};
ghost use Rattle.entry_core.specs.Journal.{jobs, segment_literals, closing_place};
ghost use Rattle.entry_core.specs.Legal.{IsClient};
ghost use Rattle.entry_core.specs.declared.entries.Event.TheVariants as event;
ghost use Rattle.board_core.specs.State.{entered};
ghost use Rattle.board_core.specs.Replies.{IsUnsettled, HasRoomFor, IsAddFault, IsCancelFault};

use crate::board::Board;
use crate::faults::{AddFault, CancelFault, LookFault};
use crate::index::{Ending, JobState, newly_settled, put, rank_of, state};
use entry_core::{Entry, Event, Segment};
use sat_base::limits::{MOST_CLAUSES, MOST_JOBS, MOST_LITERALS};
use std::sync::Arc;

impl Board {
    /// Adds a job, and answers its number. The first refusal that stands is answered: a closing,
    /// then the limits of jobs, clauses and literals, then want of memory. Under the rule `first` a
    /// job that comes after a model is cancelled at once.
    pub fn add(&mut self, caller: u32, segment: Arc<Segment>) -> Result<u32, AddFault>
        requires client { IsClient self.old.rules caller }
        ensures ok { OnOk result (self.new ≡ entered self.old caller (event.Added segment)) }
        ensures number { IfOk result (λ job. job ≡ jobs self.old.journal + 1) }
        ensures allowed { OnOk result (HasRoomFor self.old (arc_value segment)) }
        ensures refused { IfErr result (IsAddFault self.old (arc_value segment)) }
        ensures err { OnErr result (self.new ≡ self.old) }
    {
        if let Some(place) = self.index.closed {
            return Err(AddFault::Closed(place));
        }
        let before = self.index.jobs.len();
        if before >= MOST_JOBS as usize {
            return Err(AddFault::TooManyJobs);
        }
        let clauses = segment.clauses.items().len();
        if clauses > MOST_CLAUSES as usize - self.index.clauses {
            return Err(AddFault::TooManyClauses);
        }
        let literals = literals_of(&segment);
        if literals > MOST_LITERALS as usize - self.index.literals {
            return Err(AddFault::TooManyLiterals);
        }
        let copy = segment.clone()?;
        let room = self.index.room();
        self.index.jobs.reserve(1)?;
        self.index.segments.reserve(1)?;
        self.journal.reserve(room + 2)?;
        let job = before as u32 + 1;
        let state = JobState {
            ending: self.index.next_ending(),
            ..JobState::NEW
        };
        self.index
            .waiting
            .push(rank_of(self.rules.attempts, job, state))?;
        self.journal.push_reserved(Entry {
            caller,
            event: Event::Added(segment),
        });
        self.index.jobs.push_reserved(state);
        self.index.segments.push_reserved(copy);
        self.index.clauses += clauses;
        self.index.literals += literals;
        self.index.settled += newly_settled(state.ending);
        Ok(job)
    }

    /// Says that no more jobs come, unless that was said before: then it answers the place of that
    /// entry. Takes no memory.
    pub fn close_input(&mut self, caller: u32) -> Result<(), u64>
        requires client { IsClient self.old.rules caller }
        ensures ok { OnOk result (self.new ≡ entered self.old caller event.Closed) }
        ensures closed { IfErr result (λ place. closing_place self.old.journal ≡ Some place) }
        ensures err { OnErr result (self.new ≡ self.old) }
    {
        if let Some(place) = self.index.closed {
            return Err(place);
        }
        self.journal.push_reserved(Entry {
            caller,
            event: Event::Closed,
        });
        self.index.closed = Some(self.journal.len() as u64);
        Ok(())
    }

    /// Cancels a job that isn't settled. Takes no memory.
    pub fn cancel(&mut self, caller: u32, job: u32) -> Result<(), CancelFault>
        requires client { IsClient self.old.rules caller }
        ensures ok { OnOk result (self.new ≡ entered self.old caller (event.Cancelled job)) }
        ensures unsettled { OnOk result (IsUnsettled self.old job) }
        ensures refused { IfErr result (IsCancelFault self.old job) }
        ensures err { OnErr result (self.new ≡ self.old) }
    {
        match self.outcome(job) {
            Ok(outcome) => Err(CancelFault::Settled(outcome)),
            Err(LookFault::NoSuchJob(jobs)) => Err(CancelFault::NoSuchJob(jobs)),
            Err(LookFault::NotYet) => {
                self.journal.push_reserved(Entry {
                    caller,
                    event: Event::Cancelled { job },
                });
                let before = state(&self.index.jobs, job);
                let after = JobState {
                    ending: Some(Ending::Cancelled(0)),
                    ..before
                };
                put(
                    &mut self.index.jobs,
                    &mut self.index.waiting,
                    self.rules.attempts,
                    job,
                    after,
                );
                self.index.settled += 1;
                Ok(())
            }
        }
    }
}

/// The occurrences of literals in a segment, or the last number where there are more.
fn literals_of(segment: &Segment) -> usize
    ensures { result ≡ min (segment_literals segment.now) 18446744073709551615 }
{
    let mut literals = segment.cube.lits().len();
    for clause in segment.clauses.items() {
        literals = literals.saturating_add(clause.lits().len());
    }
    literals
}

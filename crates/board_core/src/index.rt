//! What a board keeps beside its journal, so that no call walks the journal.
//!
//! The journal is what happened and alone decides what is legal; the index says again what each
//! call asks of it, by number: how a job stands, which segment and which packet has a number, which
//! job an attempt is at. A hold of the lock is as long as the call in it, and every worker waits for
//! it, so a call may cost a logarithm in the jobs at most. Therefore the jobs that wait stand in a
//! tournament and not in a list that is searched, sums of clauses and literals are kept and not
//! counted, and under the rule that a model cancels later jobs the last model is remembered: no two
//! models look at the same job. All that grows with jobs, attempts and packets is reserved by the
//! call that adds one, so that ends of attempts and the closing take no memory and can't fail.

ghost use Rattle.std.specs.Prelude.{◌≡◌, ◌+◌, ◌-◌, ◌≤◌, Some, length, slice_set};
ghost use Rattle.std.specs.Prelude.{is_some, if◌then◌else◌};
ghost use Rattle.board_core.specs.Index.{HasAttempt, MayEnd, attempted, ended_at};
ghost use Rattle.trace_core.specs.Known.{item_at};
ghost use Rattle.board_core.specs.Index.{state_at, rank_of, ranks_from, room, IsCountable};
ghost use Rattle.board_core.specs.Overtaking.{next_ending, last_of, models_after, overtaken_at};
ghost use Rattle.board_core.specs.Overtaking.{overtaken_state, ended_up_to, AreOvertaken};
ghost use Rattle.board_core.specs.Overtaking.{MayOvertake};

use crate::rank::Rank;
use crate::tournament::Tournament;
use entry_core::Segment;
use std::sync::Arc;
use trace_core::Packet;

/// How a job was settled. An answer is named by the place of its entry in the journal, counted from
/// 0.
#[derive(Clone, Copy, Debug, PartialEq, Eq)]
pub(crate) enum Ending {
    Answered(usize),
    /// By a client for 0, otherwise by a model of the earlier job of that number.
    Cancelled(u32),
    Spent,
    Starved,
}

/// Where a job stands: how many attempts at it are open, how many used up their budget, and how it
/// was settled.
#[derive(Clone, Copy, Debug, PartialEq, Eq)]
pub(crate) struct JobState {
    pub(crate) open_now: u32,
    pub(crate) spent: u32,
    pub(crate) ending: Option<Ending>,
}

impl JobState {
    /// Where a job stands that was just added.
    pub(crate) const NEW: JobState = JobState {
        open_now: 0,
        spent: 0,
        ending: None,
    };
}

/// The job of an attempt, and where it stands.
#[derive(Clone, Copy, Debug)]
pub(crate) struct Attempted {
    pub(crate) job: u32,
    pub(crate) state: JobState,
}

/// The jobs of the first and the last model. A model cancels every later job, so that each next one
/// is of a smaller job.
#[derive(Clone, Copy, Debug, PartialEq, Eq)]
pub(crate) struct Models {
    pub(crate) first: u32,
    pub(crate) last: u32,
}

/// Readings of the journal.
#[derive(Debug, Drop)]
pub(crate) struct Index {
    pub(crate) jobs: Vec<JobState>,
    pub(crate) segments: Vec<Arc<Segment>>,
    pub(crate) packets: Vec<Arc<Packet>>,
    /// The job of each attempt.
    pub(crate) attempts: Vec<u32>,
    /// The ranks of the jobs that wait.
    pub(crate) waiting: Tournament,
    /// The place of the entry `Closed`, counted from 1.
    pub(crate) closed: Option<u64>,
    /// How many clauses and how many occurrences of literals were added.
    pub(crate) clauses: usize,
    pub(crate) literals: usize,
    /// How many jobs are settled, and how many attempts are open.
    pub(crate) settled: usize,
    pub(crate) open_now: usize,
    /// The models, kept where a model cancels every later job: then each job after the last
    /// model's is settled.
    pub(crate) models: Option<Models>,
}

impl Index {
    /// Where the job of that number stands.
    pub(crate) fn job(&self, job: u32) -> Option<JobState>
        ensures { result ≡ item_at self.now.jobs.items job }
    {
        let place = job.checked_sub(1)?;
        self.jobs.get(place as usize).copied()
    }

    /// The job of an attempt that was begun, and where that job stands.
    pub(crate) fn attempted(&self, attempt: u32) -> Attempted
        requires { HasAttempt self.now attempt }
        ensures { result ≡ attempted self.now attempt }
    {
        let job = self.attempts[attempt as usize - 1];
        Attempted {
            job,
            state: state(&self.jobs, job),
        }
    }

    /// Takes the end of an attempt at a job, which stands like this then. A job may have at most so
    /// many attempts.
    pub(crate) fn end(&mut self, most: u32, job: u32, state: JobState)
        requires { MayEnd self.old job }
        ensures jobs { self.new.jobs.items ≡ slice_set self.old.jobs.items (job - 1) state }
        ensures waiting { self.new.waiting
            ≡ slice_set self.old.waiting (job - 1) (rank_of most job state) }
        ensures rest { self.new ≡ ended_at self.old self.new }
    {
        put(&mut self.jobs, &mut self.waiting, most, job, state);
        self.open_now -= 1;
    }

    /// How a job is settled that is added now.
    pub(crate) fn next_ending(&self) -> Option<Ending>
        ensures { result ≡ next_ending self.now.models }
    {
        match self.models {
            Some(models) => Some(Ending::Cancelled(models.first)),
            None => None,
        }
    }

    /// Cancels every later job that isn't settled, by a model of job `by`. No job is looked at by
    /// two models, since those after the last model's are settled.
    pub(crate) fn overtake(&mut self, most: u32, by: u32)
        requires { MayOvertake most self.old by }
        ensures jobs { AreOvertaken by (last_of self.old.models (length self.old.jobs.items))
            self.old.jobs.items self.new.jobs.items }
        ensures ranked { self.new.waiting ≡ ranks_from most 1 self.new.jobs.items }
        ensures settled { self.new.settled
            + ended_up_to self.old.jobs.items (length self.old.jobs.items)
            ≡ self.old.settled + ended_up_to self.new.jobs.items (length self.old.jobs.items) }
        ensures no_fewer { self.old.settled ≤ self.new.settled }
        ensures rest { self.new ≡ overtaken_at self.old self.new by }
    {
        let models = self.models;
        let last = last_of(models, self.jobs.len() as u32);
        let more = overtake(&mut self.jobs, &mut self.waiting, most, by, last);
        self.settled += more;
        self.models = Some(models_after(models, by));
    }

    /// How many entries may still come without memory: one for each unsettled job, each open
    /// attempt, and the closing.
    pub(crate) fn room(&self) -> usize
        requires { IsCountable self.now }
        ensures { result ≡ room self.now }
    {
        let unsettled = self.jobs.len() - self.settled;
        let closing = if self.closed.is_some() { 0 } else { 1 };
        unsettled + self.open_now + closing
    }
}

/// Where a job stands.
pub(crate) fn state(jobs: &[JobState], job: u32) -> JobState
    requires from_one { 1 ≤ job }
    requires there { job ≤ length jobs.now }
    ensures { result ≡ state_at jobs.now job }
{
    jobs[job as usize - 1]
}

/// Where a job stands among those that wait, if it waits, where a job may have at most so many
/// attempts.
pub(crate) fn rank_of(most: u32, job: u32, state: JobState) -> Option<Rank>
    ensures { result ≡ rank_of most job state }
{
    let begun = state.open_now as u64 + state.spent as u64;
    if state.ending.is_some() || begun >= most as u64 {
        return None;
    }
    Some(Rank {
        open_now: state.open_now,
        job,
    })
}

/// Writes where a job stands, and its rank.
pub(crate) fn put(
    jobs: &mut Vec<JobState>,
    waiting: &mut Tournament,
    most: u32,
    job: u32,
    state: JobState,
)
    requires from_one { 1 ≤ job }
    requires there { job ≤ length jobs.old.items }
    requires entered { length waiting.old ≡ length jobs.old.items }
    ensures jobs { jobs.new.items ≡ slice_set jobs.old.items (job - 1) state }
    ensures waiting { waiting.new ≡ slice_set waiting.old (job - 1) (rank_of most job state) }
{
    let place = job as usize - 1;
    jobs[place] = state;
    waiting.set(place, rank_of(most, job, state));
}

/// Cancels the jobs after `by`, up to the last of them, that aren't settled, and answers how many
/// they are.
fn overtake(
    jobs: &mut Vec<JobState>,
    waiting: &mut Tournament,
    most: u32,
    by: u32,
    last: u32,
) -> usize
    requires ranked { waiting.old ≡ ranks_from most 1 jobs.old.items }
    requires from { by ≤ last }
    requires there { last ≤ length jobs.old.items }
    requires few { length jobs.old.items ≤ 1048576 }
    ensures jobs { AreOvertaken by last jobs.old.items jobs.new.items }
    ensures ranked { waiting.new ≡ ranks_from most 1 jobs.new.items }
    ensures settled { ended_up_to jobs.new.items (length jobs.old.items)
        ≡ ended_up_to jobs.old.items (length jobs.old.items) + result }
{
    let mut more = 0;
    let mut job = by + 1;
    while job <= last {
        more += overtake_one(jobs, waiting, most, by, job);
        job += 1;
    }
    more
}

// Cancels a job by an earlier one's model unless it is settled, and answers how many it settled.
fn overtake_one(
    jobs: &mut Vec<JobState>,
    waiting: &mut Tournament,
    most: u32,
    by: u32,
    job: u32,
) -> usize
    requires ranked { waiting.old ≡ ranks_from most 1 jobs.old.items }
    requires from_one { 1 ≤ job }
    requires there { job ≤ length jobs.old.items }
    ensures jobs { jobs.new.items
        ≡ slice_set jobs.old.items (job - 1) (overtaken_state by (state_at jobs.old.items job)) }
    ensures ranked { waiting.new ≡ ranks_from most 1 jobs.new.items }
    ensures settled { ended_up_to jobs.new.items (length jobs.old.items)
        ≡ ended_up_to jobs.old.items (length jobs.old.items) + result }
    ensures one { result ≤ 1 }
{
    let before = state(jobs, job);
    if before.ending.is_some() {
        return 0;
    }
    let after = JobState {
        ending: Some(Ending::Cancelled(by)),
        ..before
    };
    put(jobs, waiting, most, job, after);
    1
}

// After which job each one is settled, where there are so many jobs.
fn last_of(models: Option<Models>, jobs: u32) -> u32
    ensures { result ≡ last_of models jobs }
{
    match models {
        Some(models) => models.last,
        None => jobs,
    }
}

// The models with one more.
fn models_after(models: Option<Models>, by: u32) -> Models
    ensures { result ≡ models_after models by }
{
    match models {
        Some(models) => Models { last: by, ..models },
        None => Models {
            first: by,
            last: by,
        },
    }
}

/// How many jobs an ending settles.
pub(crate) fn newly_settled(ending: Option<Ending>) -> usize
    ensures { result ≡ (if is_some ending then 1 else 0) }
{
    match ending {
        Some(_) => 1,
        None => 0,
    }
}

//! The calls of workers.

ghost use Rattle.std.specs.Prelude.{◌≡◌, ◌+◌, ◌<◌, ℕ, length, IfOk, OnOk, OnErr, IfErr};
ghost use Rattle.std.specs.Arc.{arc_value};
ghost use Rattle.entry_core.specs.Journal.{packets};
ghost use Rattle.entry_core.specs.Schedule.{IsNext, IsWaiting};
ghost use Rattle.entry_core.specs.Legal.{IsWorker, IsShareable};
ghost use Rattle.entry_core.specs.declared.entries.Event.TheVariants as event;
ghost use Rattle.board_core.specs.State.{entered};
ghost use Rattle.board_core.specs.Replies.{IsRest, IsTask, IsShareFault};

use crate::board::Board;
use crate::faults::ShareFault;
use crate::index::{JobState, put, state};
use crate::task::Task;
use entry_core::{Entry, Event};
use sat_base::limits::MOST_PACKETS;
use std::alloc::AllocError;
use std::sync::Arc;
use trace_core::Packet;

impl Board {
    /// Begins the next attempt, at the job of the scheduling rule, or says that there is none to
    /// take. Memory is wanting only where there is one.
    pub fn take(&mut self, caller: u32) -> Result<Task, AllocError>
        requires worker { IsWorker self.old.rules caller }
        ensures task { IfOk result (IsTask self.old self.new caller) }
        ensures wanted { OnErr result ((job : ℕ) × IsNext self.old.rules self.old.journal job) }
        ensures err { OnErr result (self.new ≡ self.old) }
    {
        let Some(rank) = self.index.waiting.first() else {
            return Ok(self.rest());
        };
        let job = rank.job;
        let begun = self.index.attempts.len();
        let room = self.index.room();
        self.index.attempts.reserve(1)?;
        self.journal.reserve(room + 2)?;
        let attempt = begun as u32 + 1;
        self.journal.push_reserved(Entry {
            caller,
            event: Event::Began { job, attempt },
        });
        self.index.attempts.push_reserved(job);
        let before = state(&self.index.jobs, job);
        let after = JobState {
            open_now: before.open_now + 1,
            ..before
        };
        put(
            &mut self.index.jobs,
            &mut self.index.waiting,
            self.rules.attempts,
            job,
            after,
        );
        self.index.open_now += 1;
        Ok(Task::Job { job, attempt })
    }

    // What is to do where no job waits.
    fn rest(&self) -> Task
        requires { (job : ℕ) → ¬ IsWaiting self.now.rules self.now.journal job }
        ensures { IsRest self.now result }
    {
        if self.index.closed.is_some() && self.index.settled == self.index.jobs.len() {
            Task::Done
        } else {
            Task::Idle
        }
    }

    /// Shares a packet, and answers its place among the packets.
    pub fn share(&mut self, caller: u32, packet: Arc<Packet>) -> Result<u32, ShareFault>
        requires worker { IsWorker self.old.rules caller }
        requires shareable { IsShareable self.old.journal (arc_value packet) }
        ensures ok { OnOk result (self.new ≡ entered self.old caller (event.Shared packet)) }
        ensures place { IfOk result (λ place. place ≡ length (packets self.old.journal) + 1) }
        ensures few { OnOk result (length (packets self.old.journal) < 4194304) }
        ensures refused { IfErr result (IsShareFault self.old) }
        ensures err { OnErr result (self.new ≡ self.old) }
    {
        let before = self.index.packets.len();
        if before >= MOST_PACKETS as usize {
            return Err(ShareFault::Full);
        }
        let copy = packet.clone()?;
        let room = self.index.room();
        self.index.packets.reserve(1)?;
        self.journal.reserve(room + 1)?;
        self.journal.push_reserved(Entry {
            caller,
            event: Event::Shared(packet),
        });
        self.index.packets.push_reserved(copy);
        Ok(before as u32 + 1)
    }
}

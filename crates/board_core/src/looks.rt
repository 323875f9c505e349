//! What a board tells of single jobs and packets.

ghost use Rattle.std.specs.Prelude.{◌≡◌, ◌≤◌, Some, drop, length, map, IfOk, IfErr};
ghost use Rattle.std.specs.Arc.{arc_value};
ghost use Rattle.trace_core.specs.Known.{item_at};
ghost use Rattle.entry_core.specs.Journal.{segments, packets};
ghost use Rattle.board_core.specs.Replies.{IsJob, HasOutcome, HasVerdict, IsLookFault, IsAskFault};

use crate::answers::{outcome_in, verdict_of};
use crate::board::Board;
use crate::faults::{AskFault, LookFault};
use entry_core::{Outcome, Segment, Verdict};
use std::alloc::{AllocError, Global};
use std::sync::Arc;
use trace_core::Packet;

impl Board {
    /// The outcome of a job's verdict. Takes no memory.
    pub fn outcome(&self, job: u32) -> Result<Outcome, LookFault>
        ensures ok { IfOk result (HasOutcome self.now job) }
        ensures err { IfErr result (IsLookFault self.now job) }
    {
        match self.index.job(job) {
            None => Err(LookFault::NoSuchJob(self.jobs())),
            Some(state) => match state.ending {
                None => Err(LookFault::NotYet),
                Some(how) => Ok(outcome_in(&self.journal, how)),
            },
        }
    }

    /// The verdict of a job.
    pub fn verdict(&self, job: u32) -> Result<Verdict, AskFault>
        ensures ok { IfOk result (HasVerdict self.now job) }
        ensures err { IfErr result (IsAskFault self.now job) }
    {
        match self.index.job(job) {
            None => Err(AskFault::NoSuchJob(self.jobs())),
            Some(state) => match state.ending {
                None => Err(AskFault::NotYet),
                Some(how) => Ok(verdict_of(&self.journal, how)?),
            },
        }
    }

    /// What was added with a job.
    pub fn segment(&self, job: u32) -> Result<Arc<Segment>, AllocError>
        requires { IsJob self.now job }
        ensures { IfOk result
            (λ segment. item_at (segments self.now.journal) job ≡ Some (arc_value segment)) }
    {
        self.index.segments[job as usize - 1].clone()
    }

    /// The shared packets after the first `from`, in order.
    pub fn fetch(&self, from: u32) -> Result<Vec<Arc<Packet>>, AllocError>
        requires { from ≤ length (packets self.now.journal) }
        ensures { IfOk result
            (λ fetched. map arc_value fetched.items ≡ drop from (packets self.now.journal)) }
    {
        copies(self.alloc, &self.index.packets[from as usize..])
    }
}

fn copies(alloc: Global, packets: &[Arc<Packet>]) -> Result<Vec<Arc<Packet>>, AllocError>
    ensures { IfOk result (λ copies. map arc_value copies.items ≡ map arc_value packets.now) }
{
    let mut copies = Vec::with_capacity(alloc, packets.len())?;
    for packet in packets {
        copies.push(packet.clone()?)?;
    }
    Ok(copies)
}

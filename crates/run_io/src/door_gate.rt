//! A gate for tests that need another job to be answered first.
ghost use Rattle.std.specs.Prelude.{◌≡◌};

use crate::Gate;
use std::sync::Wait;
use std::sync::atomic::AtomicBool;
use std::sync::atomic::Ordering::SeqCst;
use std::thread;
use std::thread::Threads;

/// A gate with one door: it holds whoever has taken the one job until the end of an attempt at the
/// other job stands in the journal, or until it has looked often enough. Contracts don't know what
/// its two flags say.
#[derive(Drop)]
pub struct DoorGate {
    held: u32,
    until: u32,
    turns: u64,
    answered: AtomicBool,
    was_late: AtomicBool,
}

impl DoorGate {
    /// Holds the job `held` until the job `until` is answered, for at most `turns` looks.
    pub fn new(held: u32, until: u32, turns: u64) -> DoorGate
        ensures jobs { (result.held ≡ held) × (result.until ≡ until) }
        ensures turns { result.turns ≡ turns }
    {
        DoorGate {
            held,
            until,
            turns,
            answered: AtomicBool::new(false),
            was_late: AtomicBool::new(false),
        }
    }

    /// Whether the job that it waits for was answered.
    pub fn answered(&self) -> bool {
        self.answered.load(SeqCst)
    }

    /// Whether a wait ran out.
    pub fn was_late(&self) -> bool {
        self.was_late.load(SeqCst)
    }

    /// Looks at most so many times, and tells whether the job was answered then.
    pub(crate) fn opens_within(&self, turns: u64) -> bool {
        for _ in 0..turns {
            if self.answered() {
                return true;
            }
            thread::yield_now();
        }
        false
    }
}

impl Gate for DoorGate {
    fn before<R: Threads + Wait + Sync>(&self, _rt: &R, _worker: u32, job: u32) {
        if job == self.held && !self.opens_within(self.turns) {
            self.was_late.store(true, SeqCst);
        }
    }

    fn after<R: Threads + Wait + Sync>(&self, _rt: &R, _worker: u32, job: u32) {
        if job == self.until {
            self.answered.store(true, SeqCst);
        }
    }
}

//! What the sides of a run tell each other. No contract speaks of it.

use std::sync::atomic::Ordering::SeqCst;
use std::sync::atomic::{AtomicBool, AtomicUsize};

/// Flags that rise once, and how many workers are still there.
#[derive(Drop)]
pub(crate) struct Meeting {
    is_over: AtomicBool,
    is_broken: AtomicBool,
    workers: AtomicUsize,
}

impl Meeting {
    pub(crate) fn new(workers: usize) -> Meeting {
        Meeting {
            is_over: AtomicBool::new(false),
            is_broken: AtomicBool::new(false),
            workers: AtomicUsize::new(workers),
        }
    }

    /// Says that no more jobs come.
    pub(crate) fn end(&self) {
        self.is_over.store(true, SeqCst);
    }

    /// Whether no more jobs come.
    pub(crate) fn is_over(&self) -> bool {
        self.is_over.load(SeqCst)
    }

    /// Says that the sink failed.
    pub(crate) fn break_off(&self) {
        self.is_broken.store(true, SeqCst);
    }

    /// Whether the sink failed.
    pub(crate) fn is_broken(&self) -> bool {
        self.is_broken.load(SeqCst)
    }

    /// Says that one worker is gone.
    pub(crate) fn leave(&self) {
        self.workers.fetch_sub(1, SeqCst);
    }

    /// Whether every worker is gone.
    pub(crate) fn is_deserted(&self) -> bool {
        self.workers.load(SeqCst) == 0
    }
}

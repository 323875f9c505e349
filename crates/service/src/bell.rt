//! What sleepers wait on. No contract speaks of it.

use crossbeam_utils::sync::EventCount;
use std::sync::Wait;
use std::sync::atomic::AtomicU64;
use std::sync::atomic::Ordering::SeqCst;

/// A word that each ring raises by one, those who sleep until it does, and the length that the
/// journal had when it was last put back.
#[derive(Drop)]
pub(crate) struct Bell {
    word: AtomicU64,
    sleepers: EventCount,
    entries: AtomicU64,
}

impl Bell {
    pub(crate) fn new() -> Bell {
        Bell {
            word: AtomicU64::new(0),
            sleepers: EventCount::new(),
            entries: AtomicU64::new(0),
        }
    }

    pub(crate) fn read(&self) -> u64 {
        self.word.load(SeqCst)
    }

    pub(crate) fn ring(&self) {
        self.word.fetch_add(1, SeqCst);
        self.sleepers.notify_all();
    }

    /// Sleeps where the word is still this number, looked at once the wait is announced: so no ring
    /// in between is missed.
    pub(crate) fn sleep<R: Wait>(&self, rt: &R, word: u64) {
        let announced = self.sleepers.prepare_wait();
        if self.word.load(SeqCst) == word {
            announced.wait(rt);
        }
    }

    /// Whether the journal grew since it was last put back, now that it has this many entries.
    pub(crate) fn has_grown(&self, entries: u64) -> bool {
        self.entries.swap(entries, SeqCst) != entries
    }
}

//! When a search restarts.

use pick_core::luby;

// So many learnt clauses stand for one in the sequence.
const UNIT: u64 = 64;

// So many learnt clauses come between two restarts by glue, at least.
const LEAST: u64 = 32;

// Averages are kept in so many parts of one.
const ONE: u64 = 65_536;

/// The search goes back to level 0 now and then, and keeps what it has learnt. Its place is kept
/// over rounds.
#[derive(Clone, Copy, Debug)]
pub(crate) struct Restarts {
    rule: Rule,
    // How many restarts came, and how many learnt clauses since the last one.
    count: u64,
    learnt: u64,
    // How many learnt clauses came, and moving averages of the number of their levels: over some 32
    // clauses, and over some 8192.
    all: u64,
    fast: u64,
    slow: u64,
}

#[derive(Clone, Copy, Debug, PartialEq, Eq)]
enum Rule {
    // After 64 times as many learnt clauses as the next item of the sequence of Luby, Sinclair and
    // Zuckerman says.
    Sequence,
    // Where the clauses learnt of late have more levels than those before, by a tenth: G. Audemard,
    // L. Simon, "Refining restarts strategies for SAT and UNSAT", 2012.
    Glue,
}

impl Restarts {
    /// By the number of levels of learnt clauses, or else by the sequence.
    pub(crate) fn new(by_glue: bool) -> Restarts {
        Restarts {
            rule: rule_of(by_glue),
            count: 0,
            learnt: 0,
            all: 0,
            fast: 0,
            slow: 0,
        }
    }

    /// Counts a learnt clause, whose literals are of so many levels.
    pub(crate) fn count_clause(&mut self, levels: u32) {
        self.learnt = self.learnt.saturating_add(1);
        self.all = self.all.saturating_add(1);
        let levels = u64::from(levels).saturating_mul(ONE);
        self.fast = moved(self.fast, levels, self.all.min(32));
        self.slow = moved(self.slow, levels, self.all.min(8192));
    }

    /// Whether a restart comes after the last learnt clause.
    pub(crate) fn is_due(&mut self) -> bool {
        let place = self.count.saturating_add(1);
        let due = match self.rule {
            Rule::Sequence => self.learnt >= luby(place).saturating_mul(UNIT),
            Rule::Glue => {
                self.learnt >= LEAST && self.fast > self.slow.saturating_add(self.slow / 10)
            }
        };
        if due {
            self.count = place;
            self.learnt = 0;
        }
        due
    }
}

// A moving average over a window of so many values, after one more value.
fn moved(average: u64, value: u64, window: u64) -> u64 {
    let window = window.max(1);
    average
        .saturating_sub(average / window)
        .saturating_add(value / window)
}

fn rule_of(by_glue: bool) -> Rule {
    if by_glue {
        return Rule::Glue;
    }
    Rule::Sequence
}

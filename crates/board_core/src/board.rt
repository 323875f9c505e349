//! A board, and what it tells.

ghost use Rattle.std.specs.Prelude.{◌≡◌, [], length, IfOk};
ghost use Rattle.entry_core.specs.Journal.{jobs, packets};
ghost use Rattle.entry_core.specs.Settled.{settled_jobs};
ghost use Rattle.entry_core.specs.Legal.{AreWithinLimits, IsLegal};

use crate::index::Index;
use crate::tournament::Tournament;
use entry_core::{Entry, Rules};
use std::alloc::{AllocError, Global};
use std::marker::Model;

/// Jobs, shared packets and verdicts. Contracts see a board as its rules and its journal, which is
/// legal; jobs, attempts, packets and places in the journal are counted from 1.
#[derive(Debug, Drop)]
pub struct Board {
    pub(crate) rules: Rules,
    pub(crate) journal: Vec<Entry>,
    pub(crate) index: Index,
    pub(crate) alloc: Global,
}

impl Model for Board {
    ghost use Rattle.board_core.specs.State.{State};

    ghost Value = { State };

    ghost use Rattle.board_core.specs.Kept.{state_of, IsKept};

    ghost view = { state_of };

    ghost invariant = { IsKept };
}

impl Board {
    /// A board with an empty journal.
    pub fn new(alloc: Global, rules: Rules) -> Result<Board, AllocError>
        requires { AreWithinLimits rules }
        ensures { IfOk result (λ board. board ≡ record { rules = rules; journal = [] }) }
    {
        Ok(Board {
            rules,
            // The room for the entry `Closed`.
            journal: Vec::with_capacity(alloc, 1)?,
            index: Index {
                jobs: Vec::new(alloc),
                segments: Vec::new(alloc),
                packets: Vec::new(alloc),
                attempts: Vec::new(alloc),
                waiting: Tournament::new(alloc),
                closed: None,
                clauses: 0,
                literals: 0,
                settled: 0,
                open_now: 0,
                models: None,
            },
            alloc,
        })
    }

    /// The rules.
    pub fn rules(&self) -> &Rules
        ensures value { result.now ≡ self.now.rules }
        ensures limits { AreWithinLimits self.now.rules }
    {
        &self.rules
    }

    /// The journal, which is legal.
    pub fn journal(&self) -> &[Entry]
        ensures value { result.now ≡ self.now.journal }
        ensures legal { IsLegal self.now.rules self.now.journal }
    {
        &self.journal
    }

    /// How many jobs there are, at most 1,048,576.
    pub fn jobs(&self) -> u32
        ensures { result ≡ jobs self.now.journal }
    {
        self.index.jobs.len() as u32
    }

    /// How many packets are shared, at most 4,194,304.
    pub fn packets(&self) -> u32
        ensures { result ≡ length (packets self.now.journal) }
    {
        self.index.packets.len() as u32
    }

    /// How many jobs are settled.
    pub fn settled(&self) -> u64
        ensures { result ≡ settled_jobs self.now.rules self.now.journal }
    {
        self.index.settled as u64
    }
}

//! What stands among the words, before the one rule on them is tested.
ghost use Rattle.std.specs.Prelude.{◌≡◌, ℕ, List, Some, None, true, false, IfOk, IfErr, option_map};
ghost use Rattle.clap.specs.Words.{Row, Text, found_of, rows_of};
ghost use Rattle.words.specs.Accepted.{IsWithinLimits, OfSum, OfText, asked, asked_in, flag_at};
ghost use Rattle.words.specs.Accepted.{input_of, keeps_rule};
ghost use Rattle.words.specs.Given.{IsParse, IsWithin, Tells, is_on_jobs};

use crate::command::{Command, WordsFault, Work};
use clap::ArgMatches;
use std::alloc::{AllocError, Global};

// Where the words don't say.
const WORKERS: u32 = 4;

const ATTEMPTS: u32 = 1;

/// The values of the words, none where an option isn't there.
#[derive(Clone, Copy)]
pub(crate) struct Given<'a> {
    workers: Option<u32>,
    conflicts: Option<u64>,
    attempts: Option<u32>,
    first: bool,
    trace: bool,
    sum: Option<u64>,
    file: Option<&'a str>,
}

impl<'a> Given<'a> {
    /// The values that a parse found.
    pub(crate) fn new(matches: &ArgMatches<'a>) -> Given<'a>
        requires parse { (words : List Text) × IsParse words matches.now }
        ensures told { Tells (rows_of (found_of matches.now)) result }
        ensures within { IsWithin result }
    {
        Given {
            workers: matches.get_one("workers"),
            conflicts: matches.get_one("conflicts"),
            attempts: matches.get_one("attempts"),
            first: is_there(matches, "first"),
            trace: is_there(matches, "trace"),
            sum: matches.get_one("sum"),
            file: matches.get_str("file"),
        }
    }

    /// What the words ask for, refused where the one rule is broken.
    pub(crate) fn command(&self, alloc: Global) -> Result<Command, WordsFault>
        requires within { IsWithin self.now }
        ensures command { (rows : List Row) → Tells rows self.now → IfOk result
            (λ command. (keeps_rule rows ≡ true) × (asked command ≡ asked_in rows)) }
        ensures limits { IfOk result IsWithinLimits }
        ensures refused { (rows : List Row) → Tells rows self.now → IfErr result
            (λ fault. fault ≡ WordsFault.Refused → keeps_rule rows ≡ false) }
    {
        if self.sum.is_some() && self.is_on_jobs() {
            return Err(WordsFault::Refused);
        }
        Ok(Command {
            workers: self.workers.unwrap_or(WORKERS),
            conflicts: self.conflicts.unwrap_or(u64::MAX),
            attempts: self.attempts.unwrap_or(ATTEMPTS),
            first: self.first,
            trace: self.trace,
            work: self.work(alloc)?,
        })
    }

    // Whether words on a text and its jobs are there.
    fn is_on_jobs(&self) -> bool
        ensures { result ≡ is_on_jobs self.now }
    {
        self.file.is_some()
            || self.first
            || self.trace
            || self.conflicts.is_some()
            || self.attempts.is_some()
    }

    fn work(&self, alloc: Global) -> Result<Work, AllocError>
        ensures sum { (number : ℕ) → self.now.sum ≡ Some number →
            IfOk result (λ work. input_of work ≡ OfSum number) }
        ensures text { self.now.sum ≡ None → IfOk result (λ work. input_of work
            ≡ OfText (option_map (λ name. name.now) self.now.file)) }
    {
        match (self.sum, self.file) {
            (Some(number), _) => Ok(Work::Sum(number)),
            (None, Some(name)) => Ok(Work::Text(Some(String::from_str(alloc, name)?))),
            (None, None) => Ok(Work::Text(None)),
        }
    }
}

// Whether a flag is there.
fn is_there(matches: &ArgMatches<'_>, name: &str) -> bool
    ensures { result ≡ flag_at name.now (rows_of (found_of matches.now)) }
{
    matches.get_one::<bool>(name).unwrap_or(false)
}

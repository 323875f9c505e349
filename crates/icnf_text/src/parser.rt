//! Statements from tokens.

ghost use Rattle.std.specs.Prelude.{◌≡◌, ◌++◌, IfOk, OnOk, IsTrue};
ghost use Rattle.icnf_text.specs.declared.parser.Phase.TheVariants as phase;
ghost use Rattle.icnf_text.specs.Machine.{begun, end_at, is_inccnf, is_p, line_at, literal_taken};
ghost use Rattle.icnf_text.specs.Machine.{lit_code, mark_at, start, token_taken, word_at};
ghost use Rattle.icnf_text.specs.Machine.{zero_taken};

use crate::sets::{clause_of, cube_of};
use crate::words::{Word, lit_of};
use crate::{Numbered, Reason, Statement};
use sat_base::Lit;
use sat_base::limits::{MOST_CLAUSES, MOST_JOBS, MOST_LITERALS};
use std::alloc::{AllocError, Global};
use std::marker::Model;

/// How much of the header has come.
#[derive(Clone, Copy, Debug)]
pub(crate) enum Phase {
    /// No token.
    Nothing,
    /// The token `p`, on the line that stands.
    AfterP,
    /// All of it, and the rest of its line is ignored.
    Rest,
    /// Its line has ended.
    Body,
}

/// The statement that is open.
#[derive(Clone, Copy, Debug)]
pub(crate) enum Open {
    Nothing,
    Clause,
    Cube,
}

/// The statement that is open, with its literals so far, and how many clauses, cubes and literals
/// have begun.
#[derive(Debug, Drop)]
pub(crate) struct Parser {
    alloc: Global,
    phase: Phase,
    opened: Open,
    start: u64,
    lits: Vec<Lit>,
    clauses: u32,
    cubes: u32,
    literals: u32,
}

impl Model for Parser {
    ghost use Rattle.icnf_text.specs.Machine.{Parse};

    ghost Value = { Parse };

    ghost view = { λ p. record {
      phase = p.phase;
      opened = p.opened;
      start = p.start;
      lits = p.lits.items;
      clauses = p.clauses;
      cubes = p.cubes;
      literals = p.literals;
    } };
}

impl Parser {
    pub(crate) fn new(alloc: Global) -> Parser
        ensures { result ≡ start.parse }
    {
        Parser {
            alloc,
            phase: Phase::Nothing,
            opened: Open::Nothing,
            start: 0,
            lits: Vec::new(alloc),
            clauses: 0,
            cubes: 0,
            literals: 0,
        }
    }

    /// Takes the token `a` that stands on this line.
    fn mark(&mut self, line: u64) -> Option<Reason>
        ensures state { self.new ≡ (mark_at self.old.opened self.old line).parse }
        ensures reason { result ≡ (mark_at self.old.opened self.old line).reason }
    {
        match self.opened {
            Open::Nothing => {
                if self.cubes >= MOST_JOBS {
                    return Some(Reason::TooMany);
                }
                self.cubes += 1;
                self.opened = Open::Cube;
                self.start = line;
                None
            }
            _ => Some(Reason::Token),
        }
    }

    /// Begins a clause on this line, where no statement is open.
    fn begin(&mut self, line: u64) -> Option<Reason>
        ensures state { self.new ≡ (begun self.old line).parse }
        ensures reason { result ≡ (begun self.old line).reason }
    {
        match self.opened {
            Open::Nothing => {
                if self.clauses >= MOST_CLAUSES {
                    return Some(Reason::TooMany);
                }
                self.clauses += 1;
                self.opened = Open::Clause;
                self.start = line;
                None
            }
            _ => None,
        }
    }

    /// Takes a literal that stands on this line.
    pub(crate) fn literal(
        &mut self,
        line: u64,
        negative: bool,
        variable: u32,
    ) -> Result<Option<Reason>, AllocError>
        ensures state { OnOk result
            (self.new ≡ (literal_taken (lit_code negative variable) self.old line).parse) }
        ensures reason { IfOk result
            (λ reason. reason ≡ (literal_taken (lit_code negative variable) self.old line).reason) }
    {
        let Some(lit) = lit_of(negative, variable) else {
            return Ok(Some(Reason::Variable));
        };
        if let Some(reason) = self.begin(line) {
            return Ok(Some(reason));
        }
        if self.literals >= MOST_LITERALS {
            return Ok(Some(Reason::TooMany));
        }
        self.lits.push(lit)?;
        self.literals += 1;
        Ok(None)
    }

    /// Takes the token `0` that stands on this line, and gives the statement that it ends.
    #[inline(always)]
    pub(crate) fn zero(
        &mut self,
        line: u64,
        given: &mut Vec<Numbered>,
    ) -> Result<Option<Reason>, AllocError>
        ensures state { OnOk result (self.new ≡ (zero_taken self.old line).parse) }
        ensures reason { IfOk result (λ reason. reason ≡ (zero_taken self.old line).reason) }
        ensures given { OnOk result
            (given.new.items ≡ given.old.items ++ (zero_taken self.old line).given) }
    {
        if let Some(reason) = self.begin(line) {
            return Ok(Some(reason));
        }
        let statement = match self.opened {
            Open::Cube => Statement::Cube(cube_of(self.alloc, &self.lits)?),
            _ => Statement::Clause(clause_of(self.alloc, &self.lits)?),
        };
        given.push(Numbered {
            line: self.start,
            statement,
        })?;
        self.lits.clear();
        self.opened = Open::Nothing;
        Ok(None)
    }

    fn token(
        &mut self,
        line: u64,
        word: Word,
        given: &mut Vec<Numbered>,
    ) -> Result<Option<Reason>, AllocError>
        ensures state { OnOk result (self.new ≡ (token_taken self.old line word).parse) }
        ensures reason { IfOk result (λ reason. reason ≡ (token_taken self.old line word).reason) }
        ensures given { OnOk result
            (given.new.items ≡ given.old.items ++ (token_taken self.old line word).given) }
    {
        match word {
            Word::Zero => self.zero(line, given),
            Word::Mark => Ok(self.mark(line)),
            Word::Number { negative, variable } => self.literal(line, negative, variable),
            _ => Ok(Some(Reason::Token)),
        }
    }

    /// Whether statements are read: the header and its line have come.
    pub(crate) fn is_in_body(&self) -> bool
        ensures { IsTrue result → self.now.phase ≡ phase.Body }
    {
        matches!(self.phase, Phase::Body)
    }

    /// Takes a word that has ended on this line, says what is wrong with it, and adds the statement
    /// that it ends.
    pub(crate) fn word(
        &mut self,
        line: u64,
        word: Word,
        given: &mut Vec<Numbered>,
    ) -> Result<Option<Reason>, AllocError>
        ensures state { OnOk result (self.new ≡ (word_at self.old.phase self.old line word).parse) }
        ensures reason { IfOk result
            (λ reason. reason ≡ (word_at self.old.phase self.old line word).reason) }
        ensures given { OnOk result
            (given.new.items
            ≡ given.old.items ++ (word_at self.old.phase self.old line word).given) }
    {
        match self.phase {
            Phase::Nothing => {
                if !is_p(word) {
                    return Ok(Some(Reason::Header));
                }
                self.phase = Phase::AfterP;
                Ok(None)
            }
            Phase::AfterP => {
                if !is_inccnf(word) {
                    return Ok(Some(Reason::Header));
                }
                self.phase = Phase::Rest;
                Ok(None)
            }
            Phase::Rest => Ok(None),
            Phase::Body => self.token(line, word, given),
        }
    }

    /// Takes the end of a line.
    pub(crate) fn line_feed(&mut self) -> Option<Reason>
        ensures state { self.new ≡ (line_at self.old.phase self.old).parse }
        ensures reason { result ≡ (line_at self.old.phase self.old).reason }
    {
        match self.phase {
            Phase::AfterP => Some(Reason::Header),
            Phase::Rest => {
                self.phase = Phase::Body;
                None
            }
            _ => None,
        }
    }

    /// What is wrong where the text ends here.
    pub(crate) fn end(&self) -> Option<Reason>
        ensures { result ≡ end_at self.now.phase self.now }
    {
        match self.phase {
            Phase::Nothing | Phase::AfterP => Some(Reason::Header),
            Phase::Rest => None,
            Phase::Body => match self.opened {
                Open::Nothing => None,
                _ => Some(Reason::Unfinished),
            },
        }
    }
}

fn is_p(word: Word) -> bool
    ensures { result ≡ is_p word }
{
    matches!(word, Word::P)
}

fn is_inccnf(word: Word) -> bool
    ensures { result ≡ is_inccnf word }
{
    match word {
        Word::Inccnf(count) => count == 6,
        _ => false,
    }
}

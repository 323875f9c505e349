//! A text in pieces.

ghost use Rattle.std.specs.Prelude.{◌≡◌, ◌≤◌, false, true, ◌++◌, [], ◌∷◌, List, ℕ, Some, OnOk};
ghost use Rattle.std.specs.Prelude.{OnErr, IfOk, IsErr};
ghost use Rattle.icnf_text.specs.Judgement.{fault_on, statements, wrong};
ghost use Rattle.icnf_text.specs.declared.faults.Fault.{Fault};
ghost use Rattle.icnf_text.specs.Machine.{HasRead, IsLost, finished, last_at, put_at, read_byte};
ghost use Rattle.std.specs.Prelude.{◌<◌, ◌+◌, length, take, IsTrue, None};
ghost use Rattle.icnf_text.specs.Ahead.{IsBetween, end_read, is_between, number_read};
ghost use Rattle.icnf_text.specs.declared.words.Word.TheVariants as word_as;
ghost use Rattle.icnf_text.specs.Machine.{read_bytes, word_ended, margin, line_ended, quiet};
ghost use Rattle.icnf_text.specs.Machine.{zero_taken};

use crate::ahead::{Number, is_end, number_at};
use crate::parser::Parser;
use crate::places::Place;
use crate::words::Word;
use crate::{Fault, Numbered, Reason, Statements};
use std::alloc::{AllocError, Global};
use std::marker::Model;

const MOST_BYTES: u64 = 4_294_967_296;

/// What a piece of a text gave: the statements that it ended, and the first wrong place of the text
/// so far, if there is one.
#[derive(Debug, Drop)]
pub struct Fed {
    pub statements: Statements,
    pub fault: Option<Fault>,
}

/// A reader of a text that comes in pieces. It keeps no token and no line, only the literals of a
/// statement that hasn't ended.
#[derive(Debug, Drop)]
pub struct Reader {
    alloc: Global,
    parser: Parser,
    bytes: u64,
    line: u64,
    place: Place,
    word: Word,
    fault: Option<Fault>,
    lost: bool,
}

impl Model for Reader {
    ghost use Rattle.std.specs.Prelude.{◌≤◌, ◌+◌};
    ghost use Rattle.icnf_text.specs.Machine.{State};

    ghost Value = { State };

    ghost view = { λ r. record {
      parse = r.parser;
      bytes = r.bytes;
      line = r.line;
      place = r.place;
      word = r.word;
      fault = r.fault;
      lost = r.lost;
    } };

    ghost invariant = { λ r. (r.line ≤ r.bytes + 1) × (r.bytes ≤ 4294967296) };
}

impl Reader {
    /// A reader that has read nothing. Takes no memory.
    pub fn new(alloc: Global) -> Reader
        ensures { HasRead result [] }
    {
        Reader {
            alloc,
            parser: Parser::new(alloc),
            bytes: 0,
            line: 1,
            place: Place::Start,
            word: Word::Nothing,
            fault: None,
            lost: false,
        }
    }

    /// Reads the next piece of the text. It gives the statements that this piece ended, up to the
    /// first wrong place, and the first wrong place of the text so far, if there is one: from then
    /// on each call gives no statement and the same fault. Once a call was refused memory, each
    /// later one is.
    pub fn feed(&mut self, piece: &[u8]) -> Result<Fed, AllocError>
        ensures read { IfOk result
            (λ _. (text : List ℕ) → HasRead self.old text → HasRead self.new (text ++ piece.now)) }
        ensures given { IfOk result (λ fed. (text : List ℕ) → HasRead self.old text →
            statements text false ++ fed.statements ≡ statements (text ++ piece.now) false) }
        ensures fault { IfOk result
            (λ fed. (text : List ℕ) → HasRead self.old text
            → fed.fault ≡ wrong (text ++ piece.now) false) }
        ensures after_fault { IfOk result
            (λ fed. (text : List ℕ) (fault : Fault) → HasRead self.old text
            → wrong text false ≡ Some fault →
            (fed.statements ≡ []) × (fed.fault ≡ Some fault)) }
        ensures lost { OnErr result (IsLost self.new) }
        ensures stays_lost { IsLost self.old → IsErr result }
    {
        if self.lost {
            return Err(AllocError);
        }
        let mut given = Vec::new(self.alloc);
        match self.read_all(piece, &mut given) {
            Ok(()) => Ok(Fed {
                statements: Statements::of(given),
                fault: self.fault,
            }),
            Err(refused) => {
                self.lost = true;
                Err(refused)
            }
        }
    }

    /// Ends the text, and with it a token that stands at its end.
    pub fn finish(self) -> Result<Fed, AllocError>
        ensures given { IfOk result
            (λ fed. (text : List ℕ) → HasRead self text
            → statements text false ++ fed.statements ≡ statements text true) }
        ensures fault { IfOk result
            (λ fed. (text : List ℕ) → HasRead self text → fed.fault ≡ wrong text true) }
        ensures lost { IsLost self → IsErr result }
    {
        let mut reader = self;
        if reader.lost {
            return Err(AllocError);
        }
        let mut given = Vec::new(reader.alloc);
        reader.end(&mut given)?;
        Ok(Fed {
            statements: Statements::of(given),
            fault: reader.fault,
        })
    }

    fn read_all(&mut self, piece: &[u8], given: &mut Vec<Numbered>) -> Result<(), AllocError>
        ensures state { OnOk result (self.new ≡ (read_bytes (quiet self.old) piece.now).state) }
        ensures given { OnOk result
            (given.new.items ≡ given.old.items ++ (read_bytes (quiet self.old) piece.now).given) }
    {
        let mut at = 0;
        while at < piece.len() {
            self.read(piece[at], given)?;
            at += 1;
            at += self.read_run(&piece[at..], given)?;
        }
        Ok(())
    }

    // Literals and ends of statements at the front of these bytes, as many as can be read in one
    // go, maybe none: how many bytes they are.
    fn read_run(&mut self, bytes: &[u8], given: &mut Vec<Numbered>) -> Result<usize, AllocError>
        ensures within { IfOk result (λ count. count ≤ length bytes.now) }
        ensures state { IfOk result (λ count.
            self.new ≡ (read_bytes (quiet self.old) (take count bytes.now)).state) }
        ensures given { IfOk result (λ count. given.new.items
            ≡ given.old.items ++ (read_bytes (quiet self.old) (take count bytes.now)).given) }
    {
        if !self.is_between() {
            return Ok(0);
        }
        if bytes.len() as u64 > MOST_BYTES - self.bytes {
            return Ok(0);
        }
        let mut at = 0;
        while at < bytes.len() {
            let count = self.read_ahead(&bytes[at..], given)?;
            at += count;
            if count == 0 || self.fault.is_some() {
                break;
            }
        }
        Ok(at)
    }

    // The end of a statement and of its line, or a literal and the space behind it, where these
    // bytes come next; no byte where others come.
    fn read_ahead(&mut self, bytes: &[u8], given: &mut Vec<Numbered>) -> Result<usize, AllocError>
        requires some { 0 < length bytes.now }
        requires between { IsBetween self.old }
        requires room { self.old.bytes + length bytes.now ≤ 4294967296 }
        ensures within { IfOk result (λ count. count ≤ length bytes.now) }
        ensures state { IfOk result (λ count.
            self.new ≡ (read_bytes (quiet self.old) (take count bytes.now)).state) }
        ensures given { IfOk result (λ count. given.new.items
            ≡ given.old.items ++ (read_bytes (quiet self.old) (take count bytes.now)).given) }
        ensures counted { IfOk result (λ count. self.new.bytes ≡ self.old.bytes + count) }
        ensures between { OnOk result (self.new.fault ≡ None → IsBetween self.new) }
    {
        if is_end(bytes) {
            self.read_end(given)?;
            return Ok(2);
        }
        match number_at(bytes) {
            None => Ok(0),
            Some(number) => {
                self.read_number(number)?;
                Ok(number.size)
            }
        }
    }

    // Whether the next byte begins a word of a statement, a comment, or none.
    fn is_between(&self) -> bool
        ensures { IsTrue result → IsBetween self.now }
    {
        self.fault.is_none()
            && self.parser.is_in_body()
            && is_between(self.place)
            && is_nothing(self.word)
    }

    // A literal and the space behind it.
    fn read_number(&mut self, number: Number) -> Result<(), AllocError>
        requires between { IsBetween self.old }
        requires room { self.old.bytes + number.size ≤ 4294967296 }
        ensures { OnOk result
            (self.new ≡ number_read self.old number.negative number.variable number.size) }
    {
        let wrong = self
            .parser
            .literal(self.line, number.negative, number.variable)?;
        self.bytes += number.size as u64;
        self.place = Place::Gap;
        match wrong {
            None => Ok(()),
            Some(reason) => {
                self.fault = Some(Fault {
                    line: self.line,
                    reason,
                });
                Ok(())
            }
        }
    }

    // The token `0` and a line feed.
    fn read_end(&mut self, given: &mut Vec<Numbered>) -> Result<(), AllocError>
        requires between { IsBetween self.old }
        requires room { self.old.bytes + 2 ≤ 4294967296 }
        ensures state { OnOk result (self.new ≡ end_read self.old) }
        ensures given { OnOk result (given.new.items
            ≡ given.old.items ++ (zero_taken self.old.parse self.old.line).given) }
    {
        let wrong = self.parser.zero(self.line, given)?;
        self.bytes += 2;
        match wrong {
            None => {
                self.place = Place::Start;
                self.line += 1;
                Ok(())
            }
            Some(reason) => {
                self.place = Place::Gap;
                self.fault = Some(Fault {
                    line: self.line,
                    reason,
                });
                Ok(())
            }
        }
    }

    // The end of the text.
    #[tactic(auto, unfolding(crate::specs::Machine::finished))]
    fn end(&mut self, given: &mut Vec<Numbered>) -> Result<(), AllocError>
        ensures state { OnOk result (self.new ≡ (finished self.old).state) }
        ensures given { OnOk result
            (given.new.items ≡ given.old.items ++ (finished self.old).given) }
    {
        if self.fault.is_some() {
            return Ok(());
        }
        self.end_word(given)?;
        if self.fault.is_none() {
            let reason = self.parser.end();
            self.fault = fault_on(last_line(self.place, self.line), reason);
        }
        Ok(())
    }

    // The end of a word, if one stands here.
    fn end_word(&mut self, given: &mut Vec<Numbered>) -> Result<(), AllocError>
        ensures state { OnOk result (self.new ≡ (word_ended self.old).state) }
        ensures given { OnOk result
            (given.new.items ≡ given.old.items ++ (word_ended self.old).given) }
        ensures kept { OnOk result
            ((self.new.bytes ≡ self.old.bytes) × (self.new.line ≡ self.old.line)) }
    {
        match self.place {
            Place::Word => {
                let wrong = self.parser.word(self.line, self.word, given)?;
                self.fault = fault_on(self.line, wrong);
                self.place = Place::Gap;
                self.word = Word::Nothing;
                Ok(())
            }
            _ => Ok(()),
        }
    }

    // The end of a line.
    fn end_line(&mut self)
        requires { self.old.line ≤ self.old.bytes }
        ensures { self.new ≡ line_ended self.old }
    {
        let reason = self.parser.line_feed();
        self.fault = fault_on(self.line, reason);
        self.place = Place::Start;
        self.line += 1;
    }

    // A byte that is no blank and no line feed.
    fn put(&mut self, byte: u8)
        ensures { self.new ≡ put_at self.old.place self.old byte }
    {
        match self.place {
            Place::Comment => {}
            Place::Start | Place::Margin => {
                if byte == b'c' {
                    self.place = Place::Comment;
                } else {
                    self.place = Place::Word;
                    self.word = self.word.extended(byte);
                }
            }
            Place::Gap | Place::Word => {
                self.place = Place::Word;
                self.word = self.word.extended(byte);
            }
        }
    }

    // One byte more.
    #[tactic(auto, unfolding(crate::specs::Machine::read_byte))]
    fn read(&mut self, byte: u8, given: &mut Vec<Numbered>) -> Result<(), AllocError>
        ensures state { OnOk result (self.new ≡ (read_byte self.old byte).state) }
        ensures given { OnOk result
            (given.new.items ≡ given.old.items ++ (read_byte self.old byte).given) }
    {
        if self.fault.is_some() {
            return Ok(());
        }
        if self.bytes >= MOST_BYTES {
            self.fault = Some(Fault {
                line: self.line,
                reason: Reason::TooLong,
            });
            return Ok(());
        }
        self.bytes += 1;
        match byte {
            b'\n' => {
                self.end_word(given)?;
                if self.fault.is_none() {
                    self.end_line();
                }
            }
            b' ' | b'\t' | b'\r' => {
                self.end_word(given)?;
                self.place = margin(self.place);
            }
            _ => self.put(byte),
        }
        Ok(())
    }
}

fn is_between(place: Place) -> bool
    ensures { result ≡ is_between place }
{
    match place {
        Place::Start | Place::Margin | Place::Gap => true,
        _ => false,
    }
}

fn is_nothing(word: Word) -> bool
    ensures { IsTrue result → word ≡ word_as.Nothing }
{
    matches!(word, Word::Nothing)
}

fn margin(place: Place) -> Place
    ensures { result ≡ margin place }
{
    match place {
        Place::Start => Place::Margin,
        other => other,
    }
}

fn fault_on(line: u64, reason: Option<Reason>) -> Option<Fault>
    ensures { result ≡ fault_on line reason }
{
    match reason {
        None => None,
        Some(reason) => Some(Fault { line, reason }),
    }
}

// The number of the last line of a text that ends here.
fn last_line(place: Place, line: u64) -> u64
    ensures { result ≡ last_at place line }
{
    match place {
        Place::Start => { if line > 1 { line - 1 } else { line } }
        _ => line,
    }
}

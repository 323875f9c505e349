//! A source over a named file or standard input.
ghost use Rattle.std.specs.Prelude.{◌≡◌, ◌≤◌, ◌||◌, false, true, None, IfNone, IfOk, IsErr, IsOk};
ghost use Rattle.std.specs.Prelude.{OnErr, OnOk, is_some, length, option_map};
ghost use Rattle.std.specs.Io.KnownBytes.{ReadConsumes};
ghost use Rattle.run_io.specs.Bytes.{is_end};
ghost use Rattle.run_io.specs.Fault.{one_more, HasCause};
ghost use Rattle.run_io.specs.StdSourceState.{is_file_of, may_be, remaining_of};

use crate::pieces::finds_end;
use crate::system::{counted_answer, read_some};
use crate::{Failed, Source};
use std::io::Read;
use std::marker::Model;
use std::rt::Files;
use std::{fs, io};

/// A source over a named file or standard input. It tells no bytes, since nobody knows what the
/// system will give, and counts each fault that it answers; the count stands still at the last
/// number of a `u64`.
#[derive(Drop)]
pub struct StdSource<'a, R: Files + Input> {
    rt: &'a R,
    input: Option<Opened<R::File, R::Reader>>,
    faults: u64,
    ended: bool,
}

#[derive(Drop)]
enum Opened<F, I> {
    File(F),
    Input(I),
}

impl<'a, R: Files + Input> Model for StdSource<'a, R> {
    ghost use Rattle.std.specs.Prelude.{is_some};
    ghost use Rattle.run_io.specs.StdSourceState.{StdSourceState, is_file_of, remaining_of};

    ghost Value = { StdSourceState };

    ghost view = { λ a. record {
      is_open = is_some a.input;
      is_file = is_file_of a.input;
      remaining = remaining_of R.File.remaining R.Reader.remaining a.input;
      faults = a.faults;
      ended = a.ended;
    } };
}

impl<'a, R: Files + Input> StdSource<'a, R> {
    /// A source of which nothing is open yet: `start` opens it.
    pub fn new(rt: &'a R) -> StdSource<'a, R>
        ensures closed { result.is_open ≡ false }
        ensures faults { result.faults ≡ 0 }
        ensures ended { result.ended ≡ false }
    {
        StdSource {
            rt,
            input: None,
            faults: 0,
            ended: false,
        }
    }
}

impl<'a, R: Files + Input> Source for StdSource<'a, R> {
    ghost left = { λ _. None };

    ghost faults = { λ s. s.faults };

    ghost ended = { λ s. s.ended };

    ghost opened = { λ s. may_be s.is_open s.is_file };

    /// Opens the file of that name, or standard input. What was open before is closed, also where
    /// this fails.
    fn start(&mut self, name: Option<&str>) -> Result<(), Failed>
        ensures ended { self.new.ended ≡ self.old.ended }
        ensures cause { HasCause self.old.faults self.new.faults result }
        ensures standard_input { IfNone name.entry (IsOk result) }
        ensures opened { OnOk result (self.new.is_open ≡ true) }
        ensures kind { OnOk result (self.new.is_file ≡ is_some name.entry) }
        ensures fits { OnOk result (may_be self.new.is_open self.new.is_file
            (option_map (λ bytes. bytes.now) name.entry) ≡ true) }
        ensures closed { OnErr result (self.new.is_open ≡ false) }
        ensures counted { OnErr result (self.new.faults ≡ one_more self.old.faults) }
    {
        self.input = None;
        let input = match name {
            None => Opened::Input(self.rt.reader()),
            Some(path) => Opened::File(counted_answer(open_file(self.rt, path), &mut self.faults)?),
        };
        self.input = Some(input);
        Ok(())
    }

    /// Reads what `start` opened. Where nothing is open each read is a fault.
    fn read(&mut self, buf: &mut [u8]) -> Result<usize, Failed>
        ensures count { IfOk result (λ n. n ≤ length buf.old) }
        ensures ended { self.new.ended ≡ (self.old.ended || is_end result (length buf.old)) }
        ensures cause { HasCause self.old.faults self.new.faults result }
        ensures kept { (self.new.is_open ≡ self.old.is_open)
            × (self.new.is_file ≡ self.old.is_file) }
        ensures bytes { ReadConsumes self.old.remaining self.new.remaining result buf.new }
        ensures closed { self.old.is_open ≡ false → IsErr result }
        ensures counted { OnErr result (self.new.faults ≡ one_more self.old.faults) }
    {
        let answer = read_opened(&mut self.input, buf);
        let count = counted_answer(answer, &mut self.faults)?;
        self.ended |= finds_end(count, buf.len());
        Ok(count)
    }
}

/// Reads what is open. Where nothing is, that fails.
fn read_opened<F: Read, I: Read>(
    input: &mut Option<Opened<F, I>>,
    buf: &mut [u8],
) -> Result<usize, Failed>
    ensures count { IfOk result (λ n. n ≤ length buf.old) }
    ensures kept { is_some input.new ≡ is_some input.old }
    ensures kind { is_file_of input.new ≡ is_file_of input.old }
    ensures bytes { ReadConsumes (remaining_of F.remaining I.remaining input.old)
        (remaining_of F.remaining I.remaining input.new) result buf.new }
    ensures closed { is_some input.old ≡ false → IsErr result }
{
    match input {
        None => Err(Failed),
        Some(Opened::File(file)) => read_some(file, buf),
        Some(Opened::Input(reader)) => read_some(reader, buf),
    }
}

fn open_file<R: Files>(rt: &R, path: &str) -> Result<R::File, Failed> {
    fs::open(rt, path).map_err(|_| Failed)
}

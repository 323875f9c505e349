//! A sink over standard output.
ghost use Rattle.std.specs.Prelude.{◌≡◌, ◌<◌, ◌≤◌, None, IfOk, OnErr, length};
ghost use Rattle.run_io.specs.Fault.{one_more, HasCause};

use crate::system::{counted_answer, write_some};
use crate::{Failed, Sink};
use std::io;
use std::io::Write;
use std::marker::Model;

/// A sink over standard output. Each write goes straight to the system, so a reader at the other
/// end of a pipe sees a piece as soon as it is written. It tells no bytes, since nobody knows what
/// becomes of them, and counts each fault that it answers; the count stands still at the last
/// number of a `u64`. Contracts see it as that count.
#[derive(Drop)]
pub struct StdSink<'a, P: Print> {
    rt: &'a P,
    faults: u64,
}

impl<'a, P: Print> Model for StdSink<'a, P> {
    ghost use Rattle.std.specs.Prelude.{ℕ};

    ghost Value = { ℕ };

    ghost view = { λ a. a.faults };
}

impl<'a, P: Print> StdSink<'a, P> {
    pub fn new(rt: &'a P) -> StdSink<'a, P>
        ensures faults { result ≡ 0 }
    {
        StdSink { rt, faults: 0 }
    }
}

impl<'a, P: Print> Sink for StdSink<'a, P> {
    ghost taken = { λ _. None };

    ghost faults = { λ count. count };

    /// A write that takes nothing of a piece that isn't empty is a fault too.
    fn write(&mut self, piece: &[u8]) -> Result<usize, Failed>
        ensures count { IfOk result (λ n. n ≤ length piece.now) }
        ensures some { IfOk result (λ n. 0 < length piece.now → 0 < n) }
        ensures cause { HasCause self.old self.new result }
        ensures counted { OnErr result (self.new ≡ one_more self.old) }
    {
        let answer = write_some(&mut io::writer(self.rt), piece);
        counted_answer(answer, &mut self.faults)
    }

    fn flush(&mut self) -> Result<(), Failed>
        ensures cause { HasCause self.old self.new result }
        ensures counted { OnErr result (self.new ≡ one_more self.old) }
    {
        let answer = io::writer(self.rt).flush().map_err(|_| Failed);
        counted_answer(answer, &mut self.faults)
    }
}

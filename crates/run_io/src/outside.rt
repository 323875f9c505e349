//! The outside as the program sees it.
ghost use Rattle.std.specs.Prelude.{◌≡◌, ◌<◌, ◌≤◌, ◌||◌, Bool, List, ℕ, Option, IfOk, OnErr};
ghost use Rattle.std.specs.Prelude.{OnOk, length, option_map, take, true};
ghost use Rattle.run_io.specs.Bytes.{appended, followed_by, is_end, IsEmptyWhereTold};
ghost use Rattle.run_io.specs.Fault.{HasCause};

/// A call on a source or a sink that failed. Its object counts it.
#[derive(Clone, Copy, Debug, PartialEq, Eq)]
pub struct Failed;

/// Bytes that come in.
pub trait Source {
    /// The bytes still to come, where the source tells them.
    ghost left: { Self → Option (List ℕ) };

    /// The count of faults, which never falls.
    ghost faults: { Self → ℕ };

    /// Whether a read of a buffer that isn't empty has answered `Ok(0)`. A new source isn't ended,
    /// and a source that has ended stays so.
    ghost ended: { Self → Bool };

    /// Whether the input that it has open may be the one of this name, or standard input where
    /// there is no name, as far as the source tells one input from another.
    ghost opened: { Self → Option (List ℕ) → Bool };

    /// Makes the source ready to be read. With a name it is the file of that name, without one
    /// standard input; a source that has one input alone may ignore the name.
    ///
    /// # Errors
    ///
    /// `Failed` where the input can't be opened; the fault is counted.
    fn start(&mut self, name: Option<&str>) -> Result<(), Failed>
        ensures left { left self.new ≡ left self.old }
        ensures ended { ended self.new ≡ ended self.old }
        ensures opened { OnOk result
            (opened self.new (option_map (λ bytes. bytes.now) name.entry) ≡ true) }
        ensures cause { HasCause (faults self.old) (faults self.new) result };

    /// Puts the next bytes at the front of the buffer and answers how many, 0 to the buffer's
    /// length. `Ok(0)` for a buffer that isn't empty is the end.
    ///
    /// # Errors
    ///
    /// `Failed` where the read failed; nothing is taken, and the fault is counted.
    fn read(&mut self, buf: &mut [u8]) -> Result<usize, Failed>
        ensures count { IfOk result (λ n. n ≤ length buf.old) }
        ensures bytes { IfOk result
            (λ n. left self.old ≡ followed_by (take n buf.new) (left self.new)) }
        ensures end { IfOk result
            (λ n. n ≡ 0 → 0 < length buf.old → IsEmptyWhereTold (left self.new)) }
        ensures ended { ended self.new ≡ (ended self.old || is_end result (length buf.old)) }
        ensures opened { (name : Option (List ℕ)) → opened self.old name ≡ true →
            opened self.new name ≡ true }
        ensures err { OnErr result (left self.new ≡ left self.old) }
        ensures cause { HasCause (faults self.old) (faults self.new) result };
}

/// Bytes that go out.
pub trait Sink {
    /// The bytes taken so far, where the sink tells them.
    ghost taken: { Self → Option (List ℕ) };

    /// The count of faults, which never falls.
    ghost faults: { Self → ℕ };

    /// Takes some bytes from the front of the piece and answers how many: at least 1 where the
    /// piece isn't empty.
    ///
    /// # Errors
    ///
    /// `Failed` where the write failed; nothing is taken, and the fault is counted.
    fn write(&mut self, piece: &[u8]) -> Result<usize, Failed>
        ensures count { IfOk result (λ n. n ≤ length piece.now) }
        ensures some { IfOk result (λ n. 0 < length piece.now → 0 < n) }
        ensures bytes { IfOk result
            (λ n. taken self.new ≡ appended (taken self.old) (take n piece.now)) }
        ensures err { OnErr result (taken self.new ≡ taken self.old) }
        ensures cause { HasCause (faults self.old) (faults self.new) result };

    /// Hands on what was taken. It changes no bytes.
    ///
    /// # Errors
    ///
    /// `Failed` where that failed; the fault is counted.
    fn flush(&mut self) -> Result<(), Failed>
        ensures bytes { taken self.new ≡ taken self.old }
        ensures cause { HasCause (faults self.old) (faults self.new) result };
}

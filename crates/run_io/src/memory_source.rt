//! A source over bytes in memory.
ghost use Rattle.std.specs.Prelude.{◌≡◌, ◌<◌, ◌≤◌, ◌||◌, ◌++◌, ◌↔◌, false, IfOk, IsErr, OnErr};
ghost use Rattle.std.specs.Prelude.{OnOk, length, take, drop, min};
ghost use Rattle.std.specs.Vec.Iter.{into_iter_items};
ghost use Rattle.run_io.specs.Bytes.{followed_by, is_end, IsEmptyWhereTold};
ghost use Rattle.run_io.specs.Fault.{HasCause};
ghost use Rattle.run_io.specs.MemorySourceState.{most_by_cut, read_count, after_read, after_start};
ghost use Rattle.run_io.specs.MemorySourceState.{after_source_fault};
ghost use Rattle.run_io.specs.Script.{new_script, NextFails};

use crate::pieces::finds_end;
use crate::script::Script;
use crate::{Failed, Source};
use std::marker::Model;
use std::vec::IntoIter;

/// A source that gives bytes in memory, in pieces of planned sizes, and fails at planned calls. It
/// ignores the name that `start` is given.
#[derive(Drop)]
pub struct MemorySource {
    bytes: Vec<u8>,
    at: usize,
    cuts: IntoIter<usize>,
    script: Script,
    ended: bool,
}

impl Model for MemorySource {
    ghost use Rattle.std.specs.Prelude.{◌≤◌, length, drop};
    ghost use Rattle.std.specs.Vec.Iter.{into_iter_items};
    ghost use Rattle.run_io.specs.MemorySourceState.{SourceState};

    ghost Value = { SourceState };

    ghost view = { λ a. record {
      left = drop a.at a.bytes.items;
      cuts = into_iter_items a.cuts;
      script = a.script;
      ended = a.ended;
    } };

    ghost invariant = { λ a. a.at ≤ length a.bytes.items };
}

impl MemorySource {
    /// Each read that doesn't fail gives at most the next of `cuts` (0 counts as 1), and as many
    /// bytes as fit once there is none. The calls of `start` and `read` are numbered from 1; those
    /// in `fail` fail.
    pub fn new(bytes: Vec<u8>, cuts: Vec<usize>, fail: Vec<u64>) -> MemorySource
        ensures { result ≡ record {
          left = bytes.items;
          cuts = cuts.items;
          script = new_script fail.items;
          ended = false;
        } }
    {
        MemorySource {
            bytes,
            at: 0,
            cuts: cuts.into_iter(),
            script: Script::new(fail),
            ended: false,
        }
    }
}

impl Source for MemorySource {
    ghost use Rattle.std.specs.Prelude.{Some, true};

    ghost left = { λ s. Some s.left };

    ghost faults = { λ s. s.script.faults };

    ghost ended = { λ s. s.ended };

    ghost opened = { λ _ _. true };

    fn start(&mut self, _name: Option<&str>) -> Result<(), Failed>
        ensures left { self.new.left ≡ self.old.left }
        ensures ended { self.new.ended ≡ self.old.ended }
        ensures cause { HasCause self.old.script.faults self.new.script.faults result }
        ensures fails { IsErr result ↔ NextFails self.old.script }
        ensures started { OnOk result (self.new ≡ after_start self.old) }
        ensures failed { OnErr result (self.new ≡ after_source_fault self.old) }
    {
        self.script.call()
    }

    fn read(&mut self, buf: &mut [u8]) -> Result<usize, Failed>
        ensures count { IfOk result (λ n. n ≤ length buf.old) }
        ensures bytes { IfOk result
            (λ n. Some self.old.left ≡ followed_by (take n buf.new) (Some self.new.left)) }
        ensures end { IfOk result
            (λ n. n ≡ 0 → 0 < length buf.old → IsEmptyWhereTold (Some self.new.left)) }
        ensures ended { self.new.ended ≡ (self.old.ended || is_end result (length buf.old)) }
        ensures err { OnErr result (Some self.new.left ≡ Some self.old.left) }
        ensures cause { HasCause self.old.script.faults self.new.script.faults result }
        ensures fails { IsErr result ↔ NextFails self.old.script }
        ensures gives { IfOk result (λ n. n ≡ read_count self.old (length buf.old)) }
        ensures buffer { IfOk result (λ n. buf.new ≡ take n self.old.left ++ drop n buf.old) }
        ensures given { IfOk result (λ n. self.new ≡ after_read self.old (length buf.old) n) }
        ensures failed { OnErr result (self.new ≡ after_source_fault self.old) }
        ensures untouched { OnErr result (buf.new ≡ buf.old) }
    {
        self.script.call()?;
        let most = most_by_next_cut(&mut self.cuts, buf.len());
        let count = copy_front(&self.bytes[self.at..], most, buf);
        self.at += count;
        self.ended |= finds_end(count, buf.len());
        Ok(count)
    }
}

/// Uses up the next cut, and answers the most that a read gives into this much room.
fn most_by_next_cut(cuts: &mut IntoIter<usize>, room: usize) -> usize
    ensures most { result ≡ most_by_cut (into_iter_items cuts.old) room }
    ensures rest { into_iter_items cuts.new ≡ drop 1 (into_iter_items cuts.old) }
{
    match cuts.next() {
        None => room,
        Some(cut) => cut.max(1).min(room),
    }
}

/// Copies the front of the bytes, at most so many, to the front of the buffer, and answers how
/// many.
fn copy_front(bytes: &[u8], most: usize, buf: &mut [u8]) -> usize
    requires { most ≤ length buf.old }
    ensures count { result ≡ min most (length bytes.now) }
    ensures buffer { buf.new ≡ take result bytes.now ++ drop result buf.old }
{
    let count = most.min(bytes.len());
    buf[..count].copy_from_slice(&bytes[..count]);
    count
}

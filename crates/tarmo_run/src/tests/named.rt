//! A source that has one input alone, the file with the name `name`.

ghost use Rattle.std.specs.Prelude.{◌≡◌, false};

use super::dialogue::{copy_front, finds_end};
use super::words_of;
use crate::{run, run_alone};
use run_io::{Failed, MemorySink, NoGate, Source};
use std::alloc::{AllocError, Global};
use std::process::Abort;
use std::sync::Wait;
use std::test::Fail;
use std::thread::Threads;

const TEXT: &[u8] = b"p inccnf\n1 2 0\n-1 0\na 0\n";

const OUTPUT: &[u8] = b"j 1 SATISFIABLE\nv -1 2 0\nend 1\n";

// It gives its whole text in one read.
#[derive(Drop)]
struct Named {
    is_read: bool,
    faults: u64,
    ended: bool,
}

impl Named {
    fn new() -> Named
        ensures { (result.faults ≡ 0) × (result.ended ≡ false) }
    {
        Named {
            is_read: false,
            faults: 0,
            ended: false,
        }
    }
}

impl Source for Named {
    ghost use Rattle.std.specs.Prelude.{None, true};

    ghost left = { λ _. None };

    ghost faults = { λ s. s.faults };

    ghost ended = { λ s. s.ended };

    ghost opened = { λ _ _. true };

    fn start(&mut self, name: Option<&str>) -> Result<(), Failed> {
        if name == Some("name") {
            return Ok(());
        }
        self.faults = self.faults.saturating_add(1);
        Err(Failed)
    }

    fn read(&mut self, buf: &mut [u8]) -> Result<usize, Failed> {
        let count = if self.is_read {
            0
        } else {
            copy_front(TEXT, buf)
        };
        self.is_read = true;
        self.ended |= finds_end(count, buf.len());
        Ok(count)
    }
}

// The words, what is written, and the status.
const ROWS: &[(&str, &[u8], u8)] = &[
    ("-- name", OUTPUT, 0),
    ("name --workers=8", OUTPUT, 0),
    ("-- other", b"fault read\n", 3),
    ("", b"fault read\n", 3),
];

fn assert_starts_with_its_name<R: Threads + Wait + Sync + Abort>(
    rt: &R,
    alloc: Global,
    line: &str,
    output: &[u8],
    status: u8,
) -> Result<(), AllocError> {
    let words = words_of(alloc, line)?;
    let mut sink = MemorySink::new(alloc, 1000, 1000, Vec::new(alloc))?;
    let finish = run_alone(alloc, &words, &mut Named::new(), &mut sink);
    assert_eq!(rt; sink.bytes(), output, "{line}");
    assert_eq!(rt; finish.status, status, "{line}");
    let mut sink = MemorySink::new(alloc, 1000, 1000, Vec::new(alloc))?;
    let finish = run(rt, alloc, &words, &mut Named::new(), &mut sink, &NoGate);
    assert_eq!(rt; sink.bytes(), output, "{line}");
    assert_eq!(rt; finish.status, status, "{line}");
    Ok(())
}

#[test]
fn the_source_is_started_with_the_name_of_the_words(rt: HostRuntime) -> Result<(), Fail> {
    for (line, output, status) in ROWS {
        assert_starts_with_its_name(&rt, rt.alloc(), line, output, *status)?;
    }
    Ok(())
}

//! Whole runs over two sources and a sink in memory.

use crate::audit_run;
use run_io::{MemorySink, MemorySource};
use std::alloc::{AllocError, Global};
use std::test::Fail;

const TEXT: &str = "p inccnf\n1 0\n-1 2 0\na -2 0\n";

const OUTPUT: &str = "j 1 UNSATISFIABLE\nf -2 0\nt 3 2 0 1 2 0\nend 1\n";

// What a run does: its status, and the bytes that the sink took.
#[derive(Drop)]
struct Outcome {
    status: u8,
    taken: Vec<u8>,
}

// A run with these words on the text and an output, each in pieces; the calls in the lists fail.
fn run(
    alloc: Global,
    words: &[String],
    output: &str,
    output_fails: &[u64],
    sink_fails: &[u64],
) -> Result<Outcome, AllocError> {
    let cuts = [5, 9].to_vec(alloc)?;
    let mut icnf = MemorySource::new(TEXT.as_bytes().to_vec(alloc)?, cuts, Vec::new(alloc));
    let cuts = [7].to_vec(alloc)?;
    let fails = output_fails.to_vec(alloc)?;
    let mut shown = MemorySource::new(output.as_bytes().to_vec(alloc)?, cuts, fails);
    let mut sink = MemorySink::new(alloc, 100, 4, sink_fails.to_vec(alloc)?)?;
    let status = audit_run(alloc, words, &mut icnf, &mut shown, &mut sink);
    let taken = sink.bytes().to_vec(alloc)?;
    Ok(Outcome { status, taken })
}

#[test]
fn a_finding_is_a_line_and_a_status(rt: HostRuntime) -> Result<(), Fail> {
    let words = vec![in rt.alloc();
        "text".to_string(rt.alloc())?,
        "output".to_string(rt.alloc())?,
    ]?;
    let good = run(rt.alloc(), &words, OUTPUT, &[], &[])?;
    assert_eq!(rt; good.status, 0);
    assert_eq!(rt; good.taken.as_slice(), b"good 1 0\n".as_slice());
    let bad = run(rt.alloc(), &words, "j 1 UNSATISFIABLE\nf 2 0\n", &[], &[])?;
    assert_eq!(rt; bad.status, 1);
    assert_eq!(rt; bad.taken.as_slice(), b"bad 2 part\n".as_slice());
    Ok(())
}

#[test]
fn faults_have_their_statuses(rt: HostRuntime) -> Result<(), Fail> {
    let words = vec![in rt.alloc();
        "text".to_string(rt.alloc())?,
        "output".to_string(rt.alloc())?,
    ]?;
    let one = run(rt.alloc(), &words[..1], OUTPUT, &[], &[])?;
    assert_eq!(rt; one.status, 5);
    assert_eq!(rt; one.taken.len(), 0);
    let unread = run(rt.alloc(), &words, OUTPUT, &[2], &[])?;
    assert_eq!(rt; unread.status, 3);
    assert_eq!(rt; unread.taken.len(), 0);
    let untaken = run(rt.alloc(), &words, OUTPUT, &[], &[2])?;
    assert_eq!(rt; untaken.status, 4);
    assert_eq!(rt; untaken.taken.as_slice(), b"good".as_slice());
    // Three writes take the whole line, and the fourth call is the flush.
    let unflushed = run(rt.alloc(), &words, OUTPUT, &[], &[4])?;
    assert_eq!(rt; unflushed.status, 4);
    assert_eq!(rt; unflushed.taken.as_slice(), b"good 1 0\n".as_slice());
    Ok(())
}

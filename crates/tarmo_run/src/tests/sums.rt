//! Runs over the text that a number stands for.

use super::words_of;
use crate::{Finish, run};
use board_core::Board;
use entry_core::Outcome;
use run_io::{MemorySink, MemorySource, NoGate};
use std::alloc::{AllocError, Global};
use std::process::Abort;
use std::sync::Wait;
use std::test::Fail;
use std::thread::Threads;

// A run with these words, and the bytes that its sink took.
fn sum_up<R: Threads + Wait + Sync>(
    rt: &R,
    alloc: Global,
    line: &str,
) -> Result<(Finish, Vec<u8>), AllocError> {
    let words = words_of(alloc, line)?;
    let mut source = MemorySource::new(Vec::new(alloc), Vec::new(alloc), Vec::new(alloc));
    let mut sink = MemorySink::new(alloc, 1000, 1000, Vec::new(alloc))?;
    let finish = run(rt, alloc, &words, &mut source, &mut sink, &NoGate);
    let taken = sink.bytes().to_vec(alloc)?;
    Ok((finish, taken))
}

fn answered(board: &Board) -> u32 {
    let mut count: u32 = 0;
    for job in 1..=board.jobs() {
        if matches!(
            board.outcome(job),
            Ok(Outcome::Model) | Ok(Outcome::Refuted)
        ) {
            count = count.saturating_add(1);
        }
    }
    count
}

#[test]
fn a_number_has_the_same_summary_on_one_worker_and_on_eight(rt: HostRuntime) -> Result<(), Fail> {
    let alloc = rt.alloc();
    let (finish, one) = sum_up(&rt, alloc, "--sum 1 --workers 1")?;
    let (other, eight) = sum_up(&rt, alloc, "--sum 1 --workers 8")?;
    assert_eq!(rt; one.as_slice(), eight.as_slice());
    assert!(rt; one.starts_with(b"sum 1\nclauses 10480\njobs 120\nsatisfiable "));
    assert!(rt; one.ends_with(b"\nunknown 0\ncancelled 0\nnomemory 0\nend 120\n"));
    assert_eq!(rt; (finish.status, other.status), (0, 0));
    assert!(rt; finish.board.is_some_and(|board| answered(&board) == 120));
    Ok(())
}

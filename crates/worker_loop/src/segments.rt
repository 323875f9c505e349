//! Jobs of a board, taken from it and loaded.

ghost use Rattle.std.specs.Prelude.{◌≡◌, ◌+◌, ◌≤◌, length, List, map, IfOk, OnOk};
ghost use Rattle.std.specs.Arc.{arc_value};
ghost use Rattle.entry_core.specs.declared.entries.Entry.{Entry};
ghost use Rattle.board_core.specs.Replies.{IsJob};
ghost use Rattle.worker_loop.specs.Fits.{Fits};
ghost use Rattle.worker_loop.specs.Kept.{KeepsLearnt};
ghost use Rattle.worker_loop.specs.Segments.{AreSegments, FitsBefore};

use crate::bench::Bench;
use crate::loading::load_next;
use board_core::Board;
use entry_core::Segment;
use std::alloc::{AllocError, Global};
use std::sync::Arc;

/// What was added with the jobs behind the first `from`, up to this one.
pub(crate) fn segments_up_to(
    alloc: Global,
    board: &Board,
    from: u32,
    job: u32,
) -> Result<Vec<Arc<Segment>>, AllocError>
    requires job { IsJob board.now job }
    requires from { from ≤ job }
    ensures segments { IfOk result
        (λ found. AreSegments board.now.journal from (map arc_value found.items)) }
    ensures count { IfOk result (λ found. from + length found.items ≡ job) }
{
    let mut found = Vec::new(alloc);
    let mut last = from;
    while last < job {
        last += 1;
        found.push(board.segment(last)?)?;
    }
    Ok(found)
}

/// Loads what was added with the jobs behind the one that is loaded, in order.
pub(crate) fn load_all(bench: &mut Bench, found: &[Arc<Segment>]) -> Result<(), AllocError>
    requires fits { FitsBefore bench.old (map arc_value found.now) }
    ensures fits { OnOk result ((journal : List Entry) → Fits bench.old journal
        → AreSegments journal bench.old.session.solver.bound (map arc_value found.now)
        → Fits bench.new journal) }
    ensures bound { OnOk result (bench.new.session.solver.bound
        ≡ bench.old.session.solver.bound + length found.now) }
    ensures kept { KeepsLearnt bench.old.session.solver bench.new.session.solver }
    ensures learnt { bench.new.session.solver.learnt ≡ bench.old.session.solver.learnt }
{
    for segment in found {
        load_next(bench, segment)?;
    }
    Ok(())
}

//! Benches brought to a job.

ghost use Rattle.std.specs.Prelude.{◌≡◌, ◌+◌, ◌<◌, ◌≤◌, Some, length, List, OnOk, OnErr};
ghost use Rattle.trace_core.specs.Known.{item_at};
ghost use Rattle.entry_core.specs.Journal.{segments};
ghost use Rattle.entry_core.specs.declared.entries.Entry.{Entry};
ghost use Rattle.board_core.specs.Replies.{IsJob};
ghost use Rattle.worker_loop.specs.Fits.{Fits, KnowsRead};
ghost use Rattle.worker_loop.specs.Kept.{KeepsLearnt};
ghost use Rattle.worker_loop.specs.Rounds.{IsLearntBefore};

use crate::bench::Bench;
use crate::importing::import_waiting;
use crate::segments::{load_all, segments_up_to};
use board_core::Board;
use entry_core::Segment;
use session::Session;
use std::alloc::{AllocError, Global};

/// Makes the job the one that is loaded. A session that is past it begins anew. Each packet that
/// was read with a tag up to the job is known then.
pub(crate) fn bring_to(
    alloc: Global,
    board: &Board,
    bench: &mut Bench,
    job: u32,
) -> Result<(), AllocError>
    requires job { IsJob board.now job }
    requires fits { Fits bench.old board.now.journal }
    ensures fits { OnOk result (Fits bench.new board.now.journal) }
    ensures bound { OnOk result (bench.new.session.solver.bound ≡ job) }
    ensures known { OnOk result (KnowsRead bench.new) }
    ensures learnt { IsLearntBefore bench.old.session.solver job bench.new.session.solver.learnt }
    ensures kept { bench.old.session.solver.bound ≤ job
        → KeepsLearnt bench.old.session.solver bench.new.session.solver }
{
    begin_anew_past(alloc, 0, bench, job);
    // A legal journal keeps the limits on jobs, clauses and packets, and each packet can be taken
    // in from its tag's job on.
    let _ = board.journal();
    let unloaded = segments_up_to(alloc, board, bench.session.bound(), job)?;
    load_all(bench, &unloaded)?;
    import_waiting(bench)
}

/// Begins anew with a session that is past the job, since clauses of later jobs are none of this
/// one's.
pub(crate) fn begin_anew_past(alloc: Global, variant: u32, bench: &mut Bench, job: u32)
    ensures fits { (journal : List Entry) → Fits bench.old journal → Fits bench.new journal }
    ensures up_to { bench.new.session.solver.bound ≤ job }
    ensures learnt { IsLearntBefore bench.old.session.solver job bench.new.session.solver.learnt }
    ensures kept { bench.old.session.solver.bound ≤ job
        → KeepsLearnt bench.old.session.solver bench.new.session.solver }
{
    if bench.session.bound() > job {
        bench.session = Session::new(alloc, variant);
    }
}

/// Loads what was added with the job behind the one that is loaded. After want of memory the
/// bench is as before.
pub(crate) fn load_next(bench: &mut Bench, segment: &Segment) -> Result<(), AllocError>
    requires clauses { length bench.old.session.solver.inputs + length segment.now.clauses
        ≤ 16777216 }
    requires jobs { bench.old.session.solver.bound < 1048576 }
    ensures fits { OnOk result
        ((journal : List Entry) → Fits bench.old journal
        → item_at (segments journal) (bench.old.session.solver.bound + 1) ≡ Some segment.now
        → Fits bench.new journal) }
    ensures bound { OnOk result
        (bench.new.session.solver.bound ≡ bench.old.session.solver.bound + 1) }
    ensures kept { KeepsLearnt bench.old.session.solver bench.new.session.solver }
    ensures learnt { bench.new.session.solver.learnt ≡ bench.old.session.solver.learnt }
    ensures err { OnErr result (bench.new ≡ bench.old) }
{
    bench.session.load(segment.clauses.items(), &segment.cube)
}

//! What a worker shares in one hold of a board.

ghost use Rattle.std.specs.Prelude.{◌≡◌, ◌∷◌, [], All, OnOk};
ghost use Rattle.entry_core.specs.Journal.{packets};
ghost use Rattle.entry_core.specs.Legal.{IsWorker};
ghost use Rattle.worker_loop.specs.Fits.{Fits, read_by};
ghost use Rattle.worker_loop.specs.Shared.{HasShared, HasSharedMore, IsLesson};

use crate::bench::Bench;
use crate::lessons::own_step;
use board_core::{Board, ShareFault};
use std::alloc::{AllocError, Global};
use std::sync::Arc;

// A clause of more literals is kept to oneself.
const SHORT: usize = 8;

/// Reads the packets that came to the board, and shares each clause of at most 8 literals among
/// those of the own steps of these numbers, in order, unless the database is full. After want of
/// memory nothing is promised of the bench.
pub(crate) fn share(
    alloc: Global,
    board: &mut Board,
    caller: u32,
    bench: &mut Bench,
    learnt: &[u64],
) -> Result<(), AllocError>
    requires worker { IsWorker board.old.rules caller }
    requires fits { Fits bench.old board.old.journal }
    requires lessons { All (IsLesson bench.old.session.solver) learnt.now }
    ensures more { HasSharedMore board.old board.new caller }
    ensures shared { OnOk result (HasShared board.new bench.old bench.new learnt.now) }
{
    read_packets(board, bench)?;
    share_all(alloc, board, caller, bench, learnt)
}

/// Reads the packets that came to the board.
pub(crate) fn read_packets(board: &Board, bench: &mut Bench) -> Result<(), AllocError>
    requires fits { Fits bench.old board.now.journal }
    ensures fits { Fits bench.new board.now.journal }
    ensures read { OnOk result (read_by bench.new ≡ packets board.now.journal) }
    ensures session { bench.new.session ≡ bench.old.session }
{
    // A legal journal has few packets.
    let _ = board.journal();
    let mut came = board.fetch(bench.packets.len() as u32)?;
    bench.packets.append(&mut came)?;
    Ok(())
}

fn share_all(
    alloc: Global,
    board: &mut Board,
    caller: u32,
    bench: &mut Bench,
    learnt: &[u64],
) -> Result<(), AllocError>
    requires worker { IsWorker board.old.rules caller }
    requires fits { Fits bench.old board.old.journal }
    requires read { read_by bench.old ≡ packets board.old.journal }
    requires lessons { All (IsLesson bench.old.session.solver) learnt.now }
    ensures more { HasSharedMore board.old board.new caller }
    ensures shared { OnOk result (HasShared board.new bench.old bench.new learnt.now) }
{
    for number in learnt {
        share_one(alloc, board, caller, bench, *number)?;
        // A legal journal has few packets.
        let _ = board.journal();
    }
    Ok(())
}

/// Shares the clause of the own step of this number, unless it has more than 8 literals or the
/// database is full. Its packet has the steps that it rests on and that aren't shared yet.
fn share_one(
    alloc: Global,
    board: &mut Board,
    caller: u32,
    bench: &mut Bench,
    number: u64,
) -> Result<(), AllocError>
    requires worker { IsWorker board.old.rules caller }
    requires fits { Fits bench.old board.old.journal }
    requires read { read_by bench.old ≡ packets board.old.journal }
    requires lesson { IsLesson bench.old.session.solver number }
    ensures more { HasSharedMore board.old board.new caller }
    ensures shared { OnOk result (HasShared board.new bench.old bench.new (number ∷ [])) }
{
    // What every session keeps is told with its steps.
    if own_step(bench.session.steps(), number).lits().len() > SHORT {
        return Ok(());
    }
    let packet = Arc::new(alloc, bench.session.packet(number)?)?;
    let place = match board.share(caller, packet.clone()?) {
        Ok(place) => place,
        Err(ShareFault::Full) => return Ok(()),
        Err(ShareFault::Memory) => return Err(AllocError),
    };
    bench.session.published(number, place, &packet)?;
    bench.packets.push(packet)?;
    Ok(())
}

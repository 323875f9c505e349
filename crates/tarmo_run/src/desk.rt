//! What the run on one thread has at hand: a board, its client and its writer, and the bench of the
//! worker.

ghost use Rattle.std.specs.Prelude.{◌≡◌, [], OnOk};
ghost use Rattle.tarmo_run.specs.Client.{Adds, AddsFirst};
ghost use Rattle.tarmo_run.specs.Desk.{IsAlone, IsBetweenPieces, IsFresh};
ghost use Rattle.tarmo_run.specs.Growth.{HasNoJobMore, IsLonger};
ghost use Rattle.tarmo_run.specs.Output.{AreSettled};

use crate::client::Client;
use crate::writer::Writer;
use board_core::Board;
use icnf_text::Numbered;
use std::alloc::{AllocError, Global};
use worker_loop::{Bench, work_alone};

// The caller behind the one client.
const WORKER: u32 = 2;

/// The board, who adds to it, who works on it, and who writes what it says.
#[derive(Drop)]
pub(crate) struct Desk {
    alloc: Global,
    pub(crate) board: Board,
    pub(crate) client: Client,
    bench: Bench,
    pub(crate) writer: Writer,
}

impl Desk {
    /// A desk over a board without entries.
    pub(crate) fn new(alloc: Global, board: Board) -> Desk
        requires alone { IsAlone board.rules }
        requires empty { board.journal ≡ [] }
        ensures board { result.board ≡ board }
        ensures fresh { IsFresh result }
        ensures between { IsBetweenPieces result }
    {
        Desk {
            alloc,
            board,
            client: Client::new(alloc),
            bench: Bench::new(alloc, 0),
            writer: Writer::new(alloc),
        }
    }

    /// Adds a job for each cube of the statements, and works until each job is settled. Where
    /// memory runs out, the jobs that were added before are settled, if there is memory for that.
    pub(crate) fn advance(&mut self, list: Vec<Numbered>) -> Result<(), AllocError>
        requires between { IsBetweenPieces self.old }
        ensures between { IsBetweenPieces self.new }
        ensures longer { IsLonger self.old.board self.new.board }
        ensures writer { self.new.writer ≡ self.old.writer }
        ensures first { AddsFirst self.old.client self.old.board self.new.board list.items }
        ensures all { OnOk result
            (Adds self.old.client self.old.board self.new.client self.new.board list.items) }
        ensures settled { OnOk result (AreSettled self.new.board) }
    {
        let added = self.client.add_all(&mut self.board, list);
        self.work()?;
        added
    }

    // Works until no job is to take.
    fn work(&mut self) -> Result<(), AllocError>
        requires between { IsBetweenPieces self.old }
        ensures between { IsBetweenPieces self.new }
        ensures more { HasNoJobMore self.old.board self.new.board }
        ensures parts { self.new
            ≡ record self.old { board = self.new.board; bench = self.new.bench } }
        ensures settled { OnOk result (AreSettled self.new.board) }
    {
        work_alone(self.alloc, &mut self.board, WORKER, &mut self.bench)
    }
}

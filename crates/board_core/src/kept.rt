//! What a lock keeps a board by: its journal, the callers of the entries, the number of settled
//! jobs, and its rules. A longer journal keeps verdicts, so that the number never falls.

ghost use Rattle.std.specs.Prelude.{◌≡◌};

use crate::board::Board;
use entry_core::{Entry, Rules};
use turn_lock::Kept;

impl Kept for Board {
    ghost use Rattle.entry_core.specs.Settled.{settled_jobs};
    ghost use Rattle.board_core.specs.Growing.{settled_no_fewer};

    type Entry = Entry;

    type Ground = Rules;

    ghost entries = { λ board. board.journal };

    ghost caller = { λ entry. entry.caller };

    ghost count = { λ board. settled_jobs board.rules board.journal };

    ghost basis = { λ board. board.rules };

    fn count_now(&self) -> u64 {
        self.settled()
    }

    ghost counts_up = { settled_no_fewer };
}

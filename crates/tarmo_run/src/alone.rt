//! The run on the caller's own thread.

ghost use Rattle.std.specs.Prelude.{◌≡◌, ◌≢◌, ◌<◌, ◌≤◌, ◌⊎◌, ◌↔◌, ℕ, [], None, Some, true, false};
ghost use Rattle.std.specs.Prelude.{nat_lt, map, option_map, string_bytes, take, IfOk, IfSome};
ghost use Rattle.std.specs.Prelude.{OnErr, OnOk, MatchOption};
ghost use Rattle.run_io.specs.Bytes.{IsEmptyWhereTold, appended};
ghost use Rattle.run_io.specs.Fault.{HasCause, last_count};
ghost use Rattle.entry_core.specs.Journal.{is_closed};
ghost use Rattle.entry_core.specs.Legal.{IsLegal};
ghost use Rattle.tarmo_run.specs.Desk.{IsAlone, IsBetweenPieces, IsFresh};
ghost use Rattle.tarmo_run.specs.Output.{IsRun, IsSum, UnlessCutShort, last_line_of};
ghost use Rattle.tarmo_run.specs.Asking.{rules_of};
ghost use Rattle.tarmo_run.specs.Promise.{HaveEnds, KeepsPromise};
ghost use Rattle.tarmo_run.specs.Ended.{Finished, FinishedInPart};
ghost use Rattle.tarmo_run.specs.declared.endings.Ending.TheVariants as endings;
ghost use Rattle.worker_loop.specs.Working.{IsResting};

use crate::asking::Task;
use crate::client::{close_input, give_up};
use crate::desk::Desk;
use crate::endings::{Ending, NO_MEMORY, close_without_memory};
use crate::pieces::show_blocks;
use crate::sum::{settle_sum, show_sum};
use board_core::Board;
use entry_core::{Rules, large_budgets_answer, verdicts_have_causes};
use run_io::{Failed, Sink, Source};
use std::alloc::Global;
use words::{WordsFault, Work};

/// The status of a run whose words are refused.
pub const WORDS_REFUSED: u8 = 5;

/// The status of a run whose sink failed.
pub(crate) const SINK_FAILED: u8 = 4;

/// What a run gives back.
#[derive(Debug, Drop)]
pub struct Finish {
    /// The first of these that stands: 5 where the words are refused; 4 where the sink failed;
    /// 6 where memory ran out, for the run or for a job; 3 where the source failed; 2 where the
    /// text has a wrong place; 1 where a job was given up or cancelled; 0 otherwise.
    pub status: u8,
    /// The board with the text's jobs and their verdicts, which takes no more jobs and has no open
    /// attempt. None where the words aren't accepted, or where there was no memory for them or for
    /// a board.
    pub board: Option<Board>,
}

/// The whole of `tarmo` on the caller's own thread, but for making the real things: reads the text
/// that the source gives in pieces of at most 65,536 bytes, adds the jobs that a piece ended to a
/// board, makes attempts at them until each is settled, writes their blocks before it reads on, and
/// gives back the status and the board.
///
/// The words are those of `read_words`. The number of workers is ignored: the one worker is the
/// caller's thread. With a name the source is started with it, and otherwise as standard input.
/// With `--sum` the text is the one that the number stands for: the source isn't started, and a
/// summary of the verdicts takes the place of the blocks.
///
/// It stops reading at the end of the text, at its first wrong place, where the source fails, and
/// where memory runs out; a text without end has a wrong place. Each block and the last line are
/// handed to the sink as pieces of their own, and one flush follows the last line; after a failed
/// write or flush nothing more is written, and jobs that aren't settled are cancelled. Under
/// `--first` a model cancels every later job, and the run is not stopped by that: each of them has
/// its block.
pub fn run_alone<S: Source, O: Sink>(
    alloc: Global,
    words: &[String],
    source: &mut S,
    out: &mut O,
) -> Finish
    requires source_faults { S.faults source.old < last_count }
    requires sink_faults { O.faults out.old < last_count }
    requires unread { S.ended source.old ≡ false }
    ensures { KeepsPromise S.left S.faults S.ended S.opened O.taken O.faults rules_of
        (map string_bytes words.now) source.old source.new out.old out.new result }
{
    verdicts_have_causes();
    large_budgets_answer();
    let task = match Task::read(alloc, words) {
        Ok(task) => task,
        Err(WordsFault::Refused) => {
            return Finish {
                status: WORDS_REFUSED,
                board: None,
            };
        }
        Err(WordsFault::Memory) => return finish_without_memory(out),
    };
    let Ok(board) = Board::new(alloc, task.rules) else {
        return finish_without_memory(out);
    };
    match &task.work {
        Work::Text(file) => run_over(alloc, task.rules, file.as_deref(), board, source, out),
        Work::Sum(number) => sum_over(alloc, task.rules, *number, board, out),
    }
}

/// A run without memory for its words or for a board: says so.
pub(crate) fn finish_without_memory<O: Sink>(out: &mut O) -> Finish
    requires sink_faults { O.faults out.old < last_count }
    ensures board { result.board ≡ None }
    ensures status { (result.status ≡ 6) ⊎ (result.status ≡ 4) }
    ensures whole { result.status ≡ 6 →
        O.taken out.new ≡ appended (O.taken out.old) (last_line_of endings.Exhausted) }
    ensures front { result.status ≡ 4 → (size : ℕ) × (O.taken out.new
        ≡ appended (O.taken out.old) (take size (last_line_of endings.Exhausted))) }
    ensures sink { (result.status ≡ 4) ↔ (O.faults out.old < O.faults out.new) }
    ensures counts { O.faults out.old ≤ O.faults out.new }
{
    let status = match close_without_memory(out) {
        Ok(_) => NO_MEMORY,
        Err(Failed) => SINK_FAILED,
    };
    Finish {
        status,
        board: None,
    }
}

// A run over an empty board.
fn run_over<S: Source, O: Sink>(
    alloc: Global,
    rules: Rules,
    file: Option<&str>,
    board: Board,
    source: &mut S,
    out: &mut O,
) -> Finish
    requires rules { board.rules ≡ rules }
    requires alone { IsAlone rules }
    requires empty { board.journal ≡ [] }
    requires source_faults { S.faults source.old < last_count }
    requires sink_faults { O.faults out.old < last_count }
    requires unread { S.ended source.old ≡ false }
    ensures run { MatchOption result.board ⊥
        (IsRun rules (S.left source.old) (S.left source.new) (S.ended source.new)
        (nat_lt (S.faults source.old) (S.faults source.new))
        (O.taken out.old) (O.taken out.new) result.status) }
    ensures closed { IfSome result.board (λ board. is_closed board.journal ≡ true) }
    ensures none_open { IfSome result.board HaveEnds }
    ensures opened { result.status ≢ 3 → result.status ≢ 4 → result.status ≢ 6 →
        S.opened source.new (option_map (λ bytes. bytes.now) file.entry) ≡ true }
    ensures whole { S.ended source.new ≡ true → IsEmptyWhereTold (S.left source.new) }
    ensures sink { (result.status ≡ 4) ↔ (O.faults out.old < O.faults out.new) }
    ensures counts { (S.faults source.old ≤ S.faults source.new)
        × (O.faults out.old ≤ O.faults out.new) }
{
    let mut desk = Desk::new(alloc, board);
    match solve(alloc, rules.traces, file, &mut desk, source, out) {
        Ok(ending) => {
            let status = ending.status(&desk.board);
            give_back(desk, status)
        }
        Err(Failed) => {
            give_up(&mut desk.board);
            give_back(desk, SINK_FAILED)
        }
    }
}

// Writes the whole output, and says how the run ended.
fn solve<S: Source, O: Sink>(
    alloc: Global,
    trace: bool,
    file: Option<&str>,
    desk: &mut Desk,
    source: &mut S,
    out: &mut O,
) -> Result<Ending, Failed>
    requires fresh { IsFresh desk.old }
    requires between { IsBetweenPieces desk.old }
    requires source_faults { S.faults source.old < last_count }
    requires unread { S.ended source.old ≡ false }
    ensures rules { desk.new.board.rules ≡ desk.old.board.rules }
    ensures finished { IfOk result (λ ending. Finished trace ending
        (S.left source.old) (S.left source.new) (S.ended source.new)
        (nat_lt (S.faults source.old) (S.faults source.new)) desk.new.board
        (O.taken out.old) (O.taken out.new)) }
    ensures front { OnErr result (FinishedInPart trace
        (S.left source.old) (S.left source.new) (S.ended source.new)
        (nat_lt (S.faults source.old) (S.faults source.new)) desk.new.board
        (O.taken out.old) (O.taken out.new)) }
    ensures closed { OnOk result (is_closed desk.new.board.journal ≡ true) }
    ensures resting { IsResting desk.new.board 2 }
    ensures opened { IfOk result (λ ending. UnlessCutShort ending
        (S.opened source.new (option_map (λ bytes. bytes.now) file.entry) ≡ true)) }
    ensures whole { S.ended source.new ≡ true → IsEmptyWhereTold (S.left source.new) }
    ensures later { S.faults source.old ≤ S.faults source.new }
    ensures cause { HasCause (O.faults out.old) (O.faults out.new) result }
{
    let ending = show_blocks(alloc, trace, file, desk, source, out)?;
    close_input(&mut desk.board);
    ending.close(alloc, out)
}

// A run over a number's text, on an empty board.
fn sum_over<O: Sink>(alloc: Global, rules: Rules, number: u64, board: Board, out: &mut O) -> Finish
    requires rules { board.rules ≡ rules }
    requires alone { IsAlone rules }
    requires empty { board.journal ≡ [] }
    requires sink_faults { O.faults out.old < last_count }
    ensures run { MatchOption result.board ⊥
        (IsSum number rules (O.taken out.old) (O.taken out.new) result.status) }
    ensures closed { IfSome result.board (λ board. is_closed board.journal ≡ true) }
    ensures none_open { IfSome result.board HaveEnds }
    ensures unread { (result.status ≢ 3) × (result.status ≢ 5) }
    ensures sink { (result.status ≡ 4) ↔ (O.faults out.old < O.faults out.new) }
    ensures counts { O.faults out.old ≤ O.faults out.new }
{
    let mut desk = Desk::new(alloc, board);
    let settled = settle_sum(alloc, number, &mut desk);
    close_input(&mut desk.board);
    match show_sum(alloc, number, settled, &desk.board, out) {
        Ok(ending) => {
            let status = ending.status(&desk.board);
            give_back(desk, status)
        }
        Err(Failed) => {
            give_up(&mut desk.board);
            give_back(desk, SINK_FAILED)
        }
    }
}

// Gives the board of the desk back.
fn give_back(desk: Desk, status: u8) -> Finish
    ensures parts { result ≡ record { status = status; board = Some desk.board } }
    ensures legal { IsLegal desk.board.rules desk.board.journal }
{
    let Desk { board, .. } = desk;
    hand_over(board, status)
}

/// Gives the board back.
pub(crate) fn hand_over(board: Board, status: u8) -> Finish
    ensures parts { result ≡ record { status = status; board = Some board } }
    ensures legal { IsLegal board.rules board.journal }
{
    // A board tells that its journal is legal.
    let _ = board.journal();
    Finish {
        status,
        board: Some(board),
    }
}

//! The run on many threads.

ghost use Rattle.std.specs.Prelude.{◌≡◌, ◌≢◌, ◌<◌, ◌≤◌, ◌↔◌, true, false, nat_lt, map};
ghost use Rattle.std.specs.Prelude.{option_map, string_bytes, IfSome, MatchOption};
ghost use Rattle.run_io.specs.Bytes.{IsEmptyWhereTold};
ghost use Rattle.run_io.specs.Fault.{last_count};
ghost use Rattle.entry_core.specs.Journal.{is_closed};
ghost use Rattle.tarmo_run.specs.Crew.{IsGathered};
ghost use Rattle.tarmo_run.specs.Output.{IsRun, IsSum};
ghost use Rattle.tarmo_run.specs.Asking.{shared_rules_of};
ghost use Rattle.tarmo_run.specs.Promise.{HaveEnds, KeepsPromise};

use crate::alone::{Finish, SINK_FAILED, WORDS_REFUSED, finish_without_memory, hand_over};
use crate::asking::Task;
use crate::client::{close_input, give_up};
use crate::closing::{finish_text, settled_if};
use crate::crew::{Crew, Left};
use crate::sides::{solve_sum, solve_text};
use crate::sum::show_sum;
use entry_core::{Rules, large_budgets_answer, verdicts_have_causes};
use run_io::{Failed, Gate, Sink, Source};
use std::alloc::Global;
use std::sync::Wait;
use std::thread::Threads;
use words::{WordsFault, Work};

/// The whole of `tarmo` on as many worker threads as the words say, but for making the real things.
/// Its promise is that of `run_alone`: which bytes are written for the bytes that were read, what
/// stands on the board that is given back, and what each status means.
///
/// It reads the text on the caller's own thread, and adds each job as soon as its cube has ended;
/// the workers make attempts at them meanwhile; and one thread more writes each block as soon as it
/// and those before it are settled, so that none waits for the rest of the text. The board has two
/// clients: the first one adds the jobs and says that no more come, the second one asks for the
/// verdicts, and cancels after a failed write. Each worker passes the gate before an attempt and
/// behind its end.
///
/// It returns where its workers do. Where no thread can be made, the caller's own reads, works and
/// writes in turn.
pub fn run<R: Threads + Wait + Sync, S: Source, O: Sink + Send, G: Gate>(
    rt: &R,
    alloc: Global,
    words: &[String],
    source: &mut S,
    out: &mut O,
    gate: &G,
) -> Finish
    requires source_faults { S.faults source.old < last_count }
    requires sink_faults { O.faults out.old < last_count }
    requires unread { S.ended source.old ≡ false }
    ensures { KeepsPromise S.left S.faults S.ended S.opened O.taken O.faults
        shared_rules_of (map string_bytes words.now) source.old source.new out.old out.new
        result }
{
    verdicts_have_causes();
    large_budgets_answer();
    let task = match Task::read(alloc, words) {
        Ok(task) => task,
        Err(WordsFault::Refused) => {
            return Finish {
                status: WORDS_REFUSED,
                board: None,
            };
        }
        Err(WordsFault::Memory) => return finish_without_memory(out),
    };
    let rules = task.shared_rules();
    let Ok(crew) = Crew::gather(alloc, rules) else {
        return finish_without_memory(out);
    };
    match &task.work {
        Work::Text(file) => run_text(rt, alloc, rules, file.as_deref(), crew, source, out, gate),
        Work::Sum(number) => run_sum(rt, alloc, rules, *number, crew, out, gate),
    }
}

// A run over the text of its source.
fn run_text<R: Threads + Wait + Sync, S: Source, O: Sink + Send, G: Gate>(
    rt: &R,
    alloc: Global,
    rules: Rules,
    file: Option<&str>,
    crew: Crew,
    source: &mut S,
    out: &mut O,
    gate: &G,
) -> Finish
    requires rules { crew.service.lock.basis ≡ rules }
    requires gathered { IsGathered crew }
    requires source_faults { S.faults source.old < last_count }
    requires sink_faults { O.faults out.old < last_count }
    requires unread { S.ended source.old ≡ false }
    ensures run { MatchOption result.board ⊥
        (IsRun rules (S.left source.old) (S.left source.new) (S.ended source.new)
        (nat_lt (S.faults source.old) (S.faults source.new))
        (O.taken out.old) (O.taken out.new) result.status) }
    ensures closed { IfSome result.board (λ board. is_closed board.journal ≡ true) }
    ensures none_open { IfSome result.board HaveEnds }
    ensures opened { result.status ≢ 3 → result.status ≢ 4 → result.status ≢ 6 →
        S.opened source.new (option_map (λ bytes. bytes.now) file.entry) ≡ true }
    ensures whole { S.ended source.new ≡ true → IsEmptyWhereTold (S.left source.new) }
    ensures sink { (result.status ≡ 4) ↔ (O.faults out.old < O.faults out.new) }
    ensures counts { (S.faults source.old ≤ S.faults source.new)
        × (O.faults out.old ≤ O.faults out.new) }
{
    let mut crew = crew;
    let ending = solve_text(rt, alloc, rules.traces, file, &mut crew, source, out, gate);
    let Left {
        mut board,
        writer,
        failed,
    } = crew.disband();
    if failed {
        give_up(&mut board);
        return hand_over(board, SINK_FAILED);
    }
    match finish_text(alloc, rules.traces, ending, &mut board, writer, out) {
        Ok(told) => {
            let status = told.status(&board);
            hand_over(board, status)
        }
        Err(Failed) => {
            give_up(&mut board);
            hand_over(board, SINK_FAILED)
        }
    }
}

// A run over a number's text.
fn run_sum<R: Threads + Wait + Sync, O: Sink, G: Gate>(
    rt: &R,
    alloc: Global,
    rules: Rules,
    number: u64,
    crew: Crew,
    out: &mut O,
    gate: &G,
) -> Finish
    requires rules { crew.service.lock.basis ≡ rules }
    requires gathered { IsGathered crew }
    requires sink_faults { O.faults out.old < last_count }
    ensures run { MatchOption result.board ⊥
        (IsSum number rules (O.taken out.old) (O.taken out.new) result.status) }
    ensures closed { IfSome result.board (λ board. is_closed board.journal ≡ true) }
    ensures none_open { IfSome result.board HaveEnds }
    ensures unread { (result.status ≢ 3) × (result.status ≢ 5) }
    ensures sink { (result.status ≡ 4) ↔ (O.faults out.old < O.faults out.new) }
    ensures counts { O.faults out.old ≤ O.faults out.new }
{
    let mut crew = crew;
    let added = solve_sum(rt, alloc, number, &mut crew, gate);
    let Left { mut board, .. } = crew.disband();
    let settled = settled_if(added, &board);
    close_input(&mut board);
    match show_sum(alloc, number, settled, &board, out) {
        Ok(ending) => {
            let status = ending.status(&board);
            hand_over(board, status)
        }
        Err(Failed) => {
            give_up(&mut board);
            hand_over(board, SINK_FAILED)
        }
    }
}

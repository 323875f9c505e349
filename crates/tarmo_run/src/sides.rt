//! The sides of a run on many threads.

ghost use Rattle.std.specs.Prelude.{◌≡◌, ◌<◌, ℕ, All, false, true};
ghost use Rattle.std.specs.Prelude.{length, option_map, slice_index_or};
ghost use Rattle.run_io.specs.Fault.{last_count};
ghost use Rattle.service.specs.Passes.{BoardPass};
ghost use Rattle.tarmo_run.specs.Crew.{IsGathered, IsWhole};
ghost use Rattle.tarmo_run.specs.Reading.{IsNew, ReadsSum};
ghost use Rattle.tarmo_run.specs.Sides.{ComesBack, HasReadText, IsAdder, IsPrinter, MayWork};
ghost use Rattle.tarmo_run.specs.Sides.{Prints, own_of, progress_by};
ghost use Rattle.tarmo_run.specs.Stop.{HasRisen};

use crate::adder::Adder;
use crate::crew::Crew;
use crate::endings::Ending;
use crate::meeting::Meeting;
use crate::printer::Printer;
use crate::reader::{read_sum, read_text};
use run_io::{Gate, Sink, Source};
use service::{Service, WorkerPass};
use std::alloc::{AllocError, Global};
use std::sync::Wait;
use std::thread::{self, Threads, join_mut};
use worker_loop::work;

/// Reads the source's text and adds its jobs, while the workers solve those that are there and the
/// printer writes the blocks of those that are settled.
///
/// Where no thread can be made, the caller's own reads, then works and then writes: each side waits
/// only for those that come before it in this order.
pub(crate) fn solve_text<R: Threads + Wait + Sync, S: Source, O: Sink + Send, G: Gate>(
    rt: &R,
    alloc: Global,
    trace: bool,
    file: Option<&str>,
    crew: &mut Crew,
    source: &mut S,
    out: &mut O,
    gate: &G,
) -> Ending
    requires gathered { IsGathered crew.old }
    requires source_faults { S.faults source.old < last_count }
    requires unread { S.ended source.old ≡ false }
    ensures whole { IsWhole crew.new }
    ensures lock { crew.new.service.lock ≡ crew.old.service.lock }
    ensures read { HasReadText S.left S.faults S.ended S.opened crew.new.service.lock
        (option_map (λ bytes. bytes.now) file.entry) result crew.new.adder source.old source.new }
    ensures prints { Prints trace crew.new.service.lock crew.old.printer crew.new.printer
        (O.taken out.old) (O.taken out.new) }
    ensures well { crew.new.printer.failed ≡ false → O.faults out.new ≡ O.faults out.old }
    ensures risen { crew.new.printer.failed ≡ true →
        HasRisen (O.faults out.old) (O.faults out.new) }
{
    let meeting = Meeting::new(crew.workers.len());
    let Crew {
        service,
        adder,
        printer,
        workers,
        ..
    } = crew;
    three_sides(
        rt,
        alloc,
        service,
        &meeting,
        trace,
        file,
        workers.as_mut_slice(),
        adder,
        printer,
        source,
        out,
        gate,
    )
}

/// Adds the jobs of the number's text, while the workers solve those that are there.
pub(crate) fn solve_sum<R: Threads + Wait + Sync, G: Gate>(
    rt: &R,
    alloc: Global,
    number: u64,
    crew: &mut Crew,
    gate: &G,
) -> Result<(), AllocError>
    requires gathered { IsGathered crew.old }
    ensures whole { IsWhole crew.new }
    ensures lock { crew.new.service.lock ≡ crew.old.service.lock }
    ensures printer { crew.new.printer ≡ crew.old.printer }
    ensures sum { ReadsSum number result (own_of crew.new.service.lock crew.new.adder.pass) }
{
    let meeting = Meeting::new(crew.workers.len());
    let Crew {
        service,
        adder,
        workers,
        ..
    } = crew;
    two_sides(
        rt,
        alloc,
        service,
        &meeting,
        number,
        workers.as_mut_slice(),
        adder,
        gate,
    )
}

// The reader on the caller's own thread, the workers, and the printer.
fn three_sides<R: Threads + Wait + Sync, S: Source, O: Sink + Send, G: Gate>(
    rt: &R,
    alloc: Global,
    service: &Service,
    meeting: &Meeting,
    trace: bool,
    file: Option<&str>,
    workers: &mut [WorkerPass],
    adder: &mut Adder,
    printer: &mut Printer,
    source: &mut S,
    out: &mut O,
    gate: &G,
) -> Ending
    requires workers { All (MayWork service.now.lock) workers.old }
    requires adder { IsAdder service.now.lock adder.old }
    requires new { IsNew (progress_by service.now.lock adder.old) }
    requires printer { IsPrinter service.now.lock printer.old }
    requires well { printer.old.failed ≡ false }
    requires source_faults { S.faults source.old < last_count }
    requires unread { S.ended source.old ≡ false }
    ensures workers { (k : ℕ) (d : BoardPass) → k < length workers.old →
        ComesBack service.now.lock (slice_index_or workers.old k d)
        (slice_index_or workers.new k d) }
    ensures read { HasReadText S.left S.faults S.ended S.opened service.now.lock
        (option_map (λ bytes. bytes.now) file.entry) result adder.new source.old source.new }
    ensures printer { IsPrinter service.now.lock printer.new }
    ensures prints { Prints trace service.now.lock printer.old printer.new
        (O.taken out.old) (O.taken out.new) }
    ensures well { printer.new.failed ≡ false → O.faults out.new ≡ O.faults out.old }
    ensures risen { printer.new.failed ≡ true →
        HasRisen (O.faults out.old) (O.faults out.new) }
{
    let (_, ending) = join_mut(
        rt,
        &mut ||
            requires { IsPrinter service.now.lock printer.now × (printer.now.failed ≡ false) }
            ensures { IsPrinter service.entry.now.lock printer.exit.now
                × Prints trace service.entry.now.lock printer.entry.now printer.exit.now
                (O.taken out.entry.now) (O.taken out.exit.now)
                × (printer.exit.now.failed ≡ false →
                O.faults out.exit.now ≡ O.faults out.entry.now)
                × (printer.exit.now.failed ≡ true →
                HasRisen (O.faults out.entry.now) (O.faults out.exit.now)) }
        { printer.print_all(rt, service, meeting, trace, out) },
        &mut || -> Ending
            requires { All (MayWork service.now.lock) workers.now
                × IsAdder service.now.lock adder.now
                × IsNew (progress_by service.now.lock adder.now)
                × (S.faults source.now < last_count) × (S.ended source.now ≡ false) }
            ensures { ((k : ℕ) (d : BoardPass) → k < length workers.entry.now →
                ComesBack service.entry.now.lock (slice_index_or workers.entry.now k d)
                (slice_index_or workers.exit.now k d))
                × HasReadText S.left S.faults S.ended S.opened service.entry.now.lock
                (option_map (λ bytes. bytes.now) file.entry) result adder.exit.now
                source.entry.now source.exit.now }
        {
            reader_and_workers(
                rt, alloc, service, meeting, file, workers, adder, source, gate,
            )
        },
    );
    ending
}

// The reader on the caller's own thread, and the workers.
fn reader_and_workers<R: Threads + Wait + Sync, S: Source, G: Gate>(
    rt: &R,
    alloc: Global,
    service: &Service,
    meeting: &Meeting,
    file: Option<&str>,
    workers: &mut [WorkerPass],
    adder: &mut Adder,
    source: &mut S,
    gate: &G,
) -> Ending
    requires workers { All (MayWork service.now.lock) workers.old }
    requires adder { IsAdder service.now.lock adder.old }
    requires new { IsNew (progress_by service.now.lock adder.old) }
    requires source_faults { S.faults source.old < last_count }
    requires unread { S.ended source.old ≡ false }
    ensures { ((k : ℕ) (d : BoardPass) → k < length workers.old →
        ComesBack service.now.lock (slice_index_or workers.old k d)
        (slice_index_or workers.new k d))
        × HasReadText S.left S.faults S.ended S.opened service.now.lock
        (option_map (λ bytes. bytes.now) file.entry) result adder.new source.old source.new }
{
    let (_, ending) = join_mut(
        rt,
        &mut ||
            requires { All (MayWork service.now.lock) workers.now }
            ensures { (k : ℕ) (d : BoardPass) → k < length workers.entry.now →
                ComesBack service.entry.now.lock (slice_index_or workers.entry.now k d)
                (slice_index_or workers.exit.now k d) }
        { work_all(rt, alloc, service, meeting, workers, gate) },
        &mut || -> Ending
            requires { IsAdder service.now.lock adder.now
                × IsNew (progress_by service.now.lock adder.now)
                × (S.faults source.now < last_count) × (S.ended source.now ≡ false) }
            ensures { HasReadText S.left S.faults S.ended S.opened service.entry.now.lock
                (option_map (λ bytes. bytes.now) file.entry) result adder.exit.now
                source.entry.now source.exit.now }
        { read_text(rt, alloc, service, meeting, file, adder, source) },
    );
    ending
}

// The reader of a number's text on the caller's own thread, and the workers.
fn two_sides<R: Threads + Wait + Sync, G: Gate>(
    rt: &R,
    alloc: Global,
    service: &Service,
    meeting: &Meeting,
    number: u64,
    workers: &mut [WorkerPass],
    adder: &mut Adder,
    gate: &G,
) -> Result<(), AllocError>
    requires workers { All (MayWork service.now.lock) workers.old }
    requires adder { IsAdder service.now.lock adder.old }
    requires new { IsNew (progress_by service.now.lock adder.old) }
    ensures { ((k : ℕ) (d : BoardPass) → k < length workers.old →
        ComesBack service.now.lock (slice_index_or workers.old k d)
        (slice_index_or workers.new k d))
        × IsAdder service.now.lock adder.new
        × ReadsSum number result (own_of service.now.lock adder.new.pass) }
{
    let (_, added) = join_mut(
        rt,
        &mut ||
            requires { All (MayWork service.now.lock) workers.now }
            ensures { (k : ℕ) (d : BoardPass) → k < length workers.entry.now →
                ComesBack service.entry.now.lock (slice_index_or workers.entry.now k d)
                (slice_index_or workers.exit.now k d) }
        { work_all(rt, alloc, service, meeting, workers, gate) },
        &mut || -> Result<(), AllocError>
            requires { IsAdder service.now.lock adder.now
                × IsNew (progress_by service.now.lock adder.now) }
            ensures { IsAdder service.entry.now.lock adder.exit.now
                × ReadsSum number result (own_of service.entry.now.lock adder.exit.now.pass) }
        { read_sum(rt, alloc, service, number, adder) },
    );
    added
}

// Each worker works in a thread of its own until no job is left.
fn work_all<R: Threads + Wait + Sync, G: Gate>(
    rt: &R,
    alloc: Global,
    service: &Service,
    meeting: &Meeting,
    workers: &mut [WorkerPass],
    gate: &G,
)
    requires { All (MayWork service.now.lock) workers.old }
    ensures { (k : ℕ) (d : BoardPass) → k < length workers.old →
        ComesBack service.now.lock (slice_index_or workers.old k d)
        (slice_index_or workers.new k d) }
{
    thread::for_each_mut(
        rt,
        workers,
        64,
        &|_: usize, pass: &mut WorkerPass|
            requires { MayWork service.now.lock pass.old }
            ensures { ComesBack service.entry.now.lock pass.old pass.new }
        { work_on(rt, alloc, service, meeting, pass, gate) },
    );
}

// One worker, whose variant is its place among the workers.
fn work_on<R: Threads + Wait + Sync, G: Gate>(
    rt: &R,
    alloc: Global,
    service: &Service,
    meeting: &Meeting,
    pass: &mut WorkerPass,
    gate: &G,
)
    requires may { MayWork service.now.lock pass.old }
    ensures { ComesBack service.now.lock pass.old pass.new }
{
    let variant = pass.number() - service.rules().clients - 1;
    // An error is want of memory, which ends this worker alone.
    let _ = work(rt, alloc, service, pass, variant, gate);
    meeting.leave();
    service.ring();
}

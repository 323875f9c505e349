//! The client of a service that writes the blocks.

ghost use Rattle.std.specs.Prelude.{◌≡◌, true, false, IfOk};
ghost use Rattle.tarmo_run.specs.Sides.{IsPrinter, Moves, Prints, seen_by};
ghost use Rattle.tarmo_run.specs.Stop.{HasRisen};
ghost use Rattle.tarmo_run.specs.Writer.{IsDue};

use crate::meeting::Meeting;
use crate::writer::{Due, Halt, Writer};
use board_core::{AskFault, CancelFault};
use run_io::Sink;
use service::{ClientPass, Service};
use std::sync::Wait;

/// A client with its pass, and what it has written.
#[derive(Drop)]
pub(crate) struct Printer {
    pub(crate) pass: ClientPass,
    pub(crate) writer: Writer,
    /// Whether the sink failed.
    pub(crate) failed: bool,
}

// How many jobs were settled when a printer asked in vain, and whether no more jobs came then.
#[derive(Clone, Copy, Debug, PartialEq, Eq)]
struct Asked {
    settled: u64,
    is_over: bool,
}

impl Printer {
    /// A printer that has written nothing.
    pub(crate) fn new(pass: ClientPass, writer: Writer) -> Printer
        ensures pass { result.pass ≡ pass }
        ensures writer { result.writer ≡ writer }
        ensures failed { result.failed ≡ false }
    {
        Printer {
            pass,
            writer,
            failed: false,
        }
    }

    /// Writes the block of each job, in order, as soon as it is settled, until each job has its
    /// block, the sink fails, memory runs out or every worker is gone.
    pub(crate) fn print_all<R: Wait, O: Sink>(
        &mut self,
        rt: &R,
        service: &Service,
        meeting: &Meeting,
        trace: bool,
        out: &mut O,
    )
        requires printer { IsPrinter service.now.lock self.old }
        requires well { self.old.failed ≡ false }
        ensures printer { IsPrinter service.now.lock self.new }
        ensures prints { Prints trace service.now.lock self.old self.new
            (O.taken out.old) (O.taken out.new) }
        ensures well { self.new.failed ≡ false → O.faults out.new ≡ O.faults out.old }
        ensures risen { self.new.failed ≡ true → HasRisen (O.faults out.old) (O.faults out.new) }
    {
        let mut asked = Asked {
            settled: 0,
            is_over: false,
        };
        for _ in rt.forever() {
            if !self.print_round(rt, service, meeting, trace, &mut asked, out) {
                return;
            }
        }
        unreachable!()
    }

    // Writes the next block where it may be there, and sleeps on the bell otherwise. Answers
    // whether there may be more.
    fn print_round<R: Wait, O: Sink>(
        &mut self,
        rt: &R,
        service: &Service,
        meeting: &Meeting,
        trace: bool,
        asked: &mut Asked,
        out: &mut O,
    ) -> bool
        requires printer { IsPrinter service.now.lock self.old }
        requires well { self.old.failed ≡ false }
        ensures printer { IsPrinter service.now.lock self.new }
        ensures prints { Prints trace service.now.lock self.old self.new
            (O.taken out.old) (O.taken out.new) }
        ensures on { result ≡ true → self.new.failed ≡ false }
        ensures well { self.new.failed ≡ false → O.faults out.new ≡ O.faults out.old }
        ensures risen { self.new.failed ≡ true → HasRisen (O.faults out.old) (O.faults out.new) }
    {
        let bell = service.bell();
        let is_over = meeting.is_over();
        let settled = self.count(service);
        if settled <= asked.settled && is_over == asked.is_over {
            return sleep(rt, service, meeting, bell);
        }
        match self.print_next(rt, service, meeting, trace, out) {
            Step::Printed => true,
            Step::Stopped => false,
            Step::Missing if is_over => false,
            Step::Missing | Step::Unsettled => {
                *asked = Asked { settled, is_over };
                sleep(rt, service, meeting, bell)
            }
        }
    }

    // How many jobs are settled.
    fn count(&mut self, service: &Service) -> u64
        requires printer { IsPrinter service.now.lock self.old }
        ensures printer { IsPrinter service.now.lock self.new }
        ensures moves { Moves service.now.lock self.old self.new }
        ensures failed { self.new.failed ≡ self.old.failed }
    {
        service.settled(&mut self.pass)
    }

    // Writes the block of the first job without one, where it is settled.
    fn print_next<R: Wait, O: Sink>(
        &mut self,
        rt: &R,
        service: &Service,
        meeting: &Meeting,
        trace: bool,
        out: &mut O,
    ) -> Step
        requires printer { IsPrinter service.now.lock self.old }
        requires well { self.old.failed ≡ false }
        ensures printer { IsPrinter service.now.lock self.new }
        ensures prints { Prints trace service.now.lock self.old self.new
            (O.taken out.old) (O.taken out.new) }
        ensures on { (result ≡ Step.Stopped → ⊥) → self.new.failed ≡ false }
        ensures well { self.new.failed ≡ false → O.faults out.new ≡ O.faults out.old }
        ensures risen { self.new.failed ≡ true → HasRisen (O.faults out.old) (O.faults out.new) }
    {
        match self.look_up(rt, service) {
            Ok(due) => self.print(rt, service, meeting, trace, &due, out),
            Err(AskFault::NoSuchJob(_)) => Step::Missing,
            Err(AskFault::NotYet) => Step::Unsettled,
            Err(AskFault::Memory) => Step::Stopped,
        }
    }

    // The first job without a block, where it is settled.
    fn look_up<R: Wait>(&mut self, rt: &R, service: &Service) -> Result<Due, AskFault>
        requires printer { IsPrinter service.now.lock self.old }
        ensures printer { IsPrinter service.now.lock self.new }
        ensures moves { Moves service.now.lock self.old self.new }
        ensures failed { self.new.failed ≡ self.old.failed }
        ensures due { IfOk result
            (IsDue self.new.writer (seen_by service.now.lock self.new.pass)) }
    {
        let Some(job) = self.writer.written.checked_add(1) else {
            return Err(AskFault::Memory);
        };
        let (segment, verdict) = service.settled_job(rt, &mut self.pass, job)?;
        Ok(Due {
            job,
            segment,
            verdict,
        })
    }

    // Writes the block of the first job without one. Where the sink fails, it breaks off.
    fn print<R: Wait, O: Sink>(
        &mut self,
        rt: &R,
        service: &Service,
        meeting: &Meeting,
        trace: bool,
        due: &Due,
        out: &mut O,
    ) -> Step
        requires printer { IsPrinter service.now.lock self.old }
        requires well { self.old.failed ≡ false }
        requires due { IsDue self.old.writer (seen_by service.now.lock self.old.pass) due.now }
        ensures printer { IsPrinter service.now.lock self.new }
        ensures prints { Prints trace service.now.lock self.old self.new
            (O.taken out.old) (O.taken out.new) }
        ensures on { (result ≡ Step.Stopped → ⊥) → self.new.failed ≡ false }
        ensures well { self.new.failed ≡ false → O.faults out.new ≡ O.faults out.old }
        ensures risen { self.new.failed ≡ true → HasRisen (O.faults out.old) (O.faults out.new) }
    {
        match self.writer.write_block(trace, due, out) {
            Ok(()) => Step::Printed,
            Err(Halt::Memory) => Step::Stopped,
            Err(Halt::Unwritten) => {
                self.break_off(rt, service, meeting);
                Step::Stopped
            }
        }
    }

    // Says that no more jobs come, and cancels each job that isn't settled.
    fn break_off<R: Wait>(&mut self, rt: &R, service: &Service, meeting: &Meeting)
        requires printer { IsPrinter service.now.lock self.old }
        ensures printer { IsPrinter service.now.lock self.new }
        ensures moves { Moves service.now.lock self.old self.new }
        ensures failed { self.new.failed ≡ true }
    {
        self.failed = true;
        meeting.break_off();
        // A refusal says that it was said before.
        let _ = service.close_input(rt, &mut self.pass);
        self.cancel_all(rt, service);
    }

    // Cancels each job that isn't settled.
    fn cancel_all<R: Wait>(&mut self, rt: &R, service: &Service)
        requires printer { IsPrinter service.now.lock self.old }
        requires failed { self.old.failed ≡ true }
        ensures printer { IsPrinter service.now.lock self.new }
        ensures moves { Moves service.now.lock self.old self.new }
        ensures failed { self.new.failed ≡ true }
    {
        let mut job = 0;
        while job < u32::MAX {
            job += 1;
            if !self.cancel(rt, service, job) {
                return;
            }
        }
    }

    // Cancels the job, where it isn't settled. Answers whether there is such a job.
    fn cancel<R: Wait>(&mut self, rt: &R, service: &Service, job: u32) -> bool
        requires printer { IsPrinter service.now.lock self.old }
        requires failed { self.old.failed ≡ true }
        ensures printer { IsPrinter service.now.lock self.new }
        ensures moves { Moves service.now.lock self.old self.new }
        ensures failed { self.new.failed ≡ true }
    {
        let cancelled = service.cancel(rt, &mut self.pass, job);
        !matches!(cancelled, Err(CancelFault::NoSuchJob(_)))
    }
}

/// What came of the first job without a block.
#[derive(Clone, Copy, Debug, PartialEq, Eq)]
enum Step {
    /// Its block is written.
    Printed,
    /// There is no such job yet.
    Missing,
    /// It isn't settled.
    Unsettled,
    /// The sink failed, or memory ran out.
    Stopped,
}

// Sleeps where the bell still has this number, unless every worker is gone. Answers whether there
// may be more.
fn sleep<R: Wait>(rt: &R, service: &Service, meeting: &Meeting, bell: u64) -> bool {
    if meeting.is_deserted() {
        return false;
    }
    service.sleep(rt, bell);
    true
}

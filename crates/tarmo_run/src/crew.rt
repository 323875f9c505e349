//! Those who take part in a run on many threads.

ghost use Rattle.std.specs.Prelude.{◌≡◌, ◌<◌, ℕ, All, IfOk, length, slice_index_or};
ghost use Rattle.entry_core.specs.Legal.{AreWithinLimits};
ghost use Rattle.tarmo_run.specs.Crew.{IsGathered, IsLeft, IsWhole};

use crate::adder::Adder;
use crate::client::Client;
use crate::printer::Printer;
use crate::writer::Writer;
use board_core::Board;
use entry_core::Rules;
use service::{ClientPass, Service, WorkerPass};
use std::alloc::{AllocError, Global};

/// A service with its two clients and its workers.
#[derive(Drop)]
pub(crate) struct Crew {
    pub(crate) service: Service,
    pub(crate) adder: Adder,
    pub(crate) printer: Printer,
    pub(crate) workers: Vec<WorkerPass>,
    // Where the clients' passes come together again, without memory being taken.
    room: Vec<ClientPass>,
}

/// What is left when a crew ends its service.
#[derive(Drop)]
pub(crate) struct Left {
    pub(crate) board: Board,
    pub(crate) writer: Writer,
    pub(crate) failed: bool,
}

impl Crew {
    /// A new service, and all who have its passes.
    pub(crate) fn gather(alloc: Global, rules: Rules) -> Result<Crew, AllocError>
        requires limits { AreWithinLimits rules }
        requires clients { rules.clients ≡ 2 }
        ensures rules { IfOk result (λ crew. crew.service.lock.basis ≡ rules) }
        ensures gathered { IfOk result IsGathered }
    {
        let room = Vec::with_capacity(alloc, 2)?;
        let (service, mut clients, workers) = Service::make(alloc, rules)?;
        let Some(second) = clients.pop() else {
            return Err(AllocError);
        };
        let Some(first) = clients.pop() else {
            return Err(AllocError);
        };
        let adder = Adder {
            pass: first,
            client: Client::new(alloc),
            added: 0,
        };
        let printer = Printer::new(second, Writer::new(alloc));
        Ok(Crew {
            service,
            adder,
            printer,
            workers,
            room,
        })
    }

    /// Ends the service.
    pub(crate) fn disband(self) -> Left
        requires whole { IsWhole self }
        ensures board { IsLeft self result.board }
        ensures writer { result.writer ≡ self.printer.writer }
        ensures failed { result.failed ≡ self.printer.failed }
    {
        let Crew {
            service,
            adder,
            printer,
            workers,
            room: mut clients,
        } = self;
        let Adder { pass, .. } = adder;
        clients.push_reserved(pass);
        let Printer {
            pass,
            writer,
            failed,
            ..
        } = printer;
        clients.push_reserved(pass);
        let board = service.shut(clients, workers);
        Left {
            board,
            writer,
            failed,
        }
    }
}

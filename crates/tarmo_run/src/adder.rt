//! The client of a service that adds the jobs.

ghost use Rattle.std.specs.Prelude.{◌≡◌, ◌+◌, ◌++◌, ◌∷◌, [], OnErr, OnOk};
ghost use Rattle.entry_core.specs.Journal.{segments};
ghost use Rattle.tarmo_run.specs.Client.{Adds, AddsFirst, queries_on};
ghost use Rattle.tarmo_run.specs.Growth.{HasNoJobMore};
ghost use Rattle.tarmo_run.specs.Sides.{IsAdder, own_of};

use crate::client::Client;
use entry_core::Clauses;
use icnf_text::{Numbered, Statement};
use sat_base::Cube;
use service::{ClientPass, Service};
use std::alloc::AllocError;
use std::sync::Wait;

/// A client with its pass, and how many jobs it has added.
#[derive(Drop)]
pub(crate) struct Adder {
    pub(crate) pass: ClientPass,
    pub(crate) client: Client,
    pub(crate) added: u32,
}

impl Adder {
    /// Adds a job to the service for each cube of the statements. Where memory runs out, or the
    /// input is closed, the jobs before are there.
    pub(crate) fn add_all<R: Wait>(
        &mut self,
        rt: &R,
        service: &Service,
        list: Vec<Numbered>,
    ) -> Result<(), AllocError>
        requires adder { IsAdder service.now.lock self.old }
        ensures adder { IsAdder service.now.lock self.new }
        ensures first { AddsFirst self.old.client (own_of service.now.lock self.old.pass)
            (own_of service.now.lock self.new.pass) list.items }
        ensures all { OnOk result
            (Adds self.old.client (own_of service.now.lock self.old.pass)
            self.new.client (own_of service.now.lock self.new.pass) list.items) }
    {
        for numbered in list {
            self.add(rt, service, numbered)?;
        }
        Ok(())
    }

    fn add<R: Wait>(
        &mut self,
        rt: &R,
        service: &Service,
        numbered: Numbered,
    ) -> Result<(), AllocError>
        requires adder { IsAdder service.now.lock self.old }
        ensures adder { IsAdder service.now.lock self.new }
        ensures none { OnErr result (queries_on (own_of service.now.lock self.new.pass)
            ≡ queries_on (own_of service.now.lock self.old.pass)) }
        ensures all { OnOk result
            (Adds self.old.client (own_of service.now.lock self.old.pass)
            self.new.client (own_of service.now.lock self.new.pass) (numbered ∷ [])) }
    {
        match numbered.statement {
            Statement::Clause(clause) => self.client.keep(clause),
            Statement::Cube(cube) => self.add_job(rt, service, cube),
        }
    }

    // Adds the job of a cube, with the clauses since the last one.
    fn add_job<R: Wait>(&mut self, rt: &R, service: &Service, cube: Cube) -> Result<(), AllocError>
        requires adder { IsAdder service.now.lock self.old }
        ensures adder { IsAdder service.now.lock self.new }
        ensures added { OnOk result (segments self.new.pass.own ≡ segments self.old.pass.own
            ++ record { clauses = self.old.client.pending.items; cube = cube } ∷ []) }
        ensures err { OnErr result (self.new.pass.own ≡ self.old.pass.own) }
        ensures none_left { self.new.client.pending.items ≡ [] }
    {
        let clauses = Clauses::of(self.client.take_pending());
        match service.add(rt, &mut self.pass, clauses, cube) {
            Ok(_) => {
                self.added += 1;
                Ok(())
            }
            Err(_) => Err(AllocError),
        }
    }

    /// Says that no more jobs come.
    pub(crate) fn close_input<R: Wait>(&mut self, rt: &R, service: &Service)
        requires adder { IsAdder service.now.lock self.old }
        ensures adder { IsAdder service.now.lock self.new }
        ensures more { HasNoJobMore (own_of service.now.lock self.old.pass)
            (own_of service.now.lock self.new.pass) }
    {
        // A refusal says that it was said before.
        let _ = service.close_input(rt, &mut self.pass);
    }
}

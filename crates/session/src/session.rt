//! Sessions.

ghost use Rattle.std.specs.Prelude.{◌≡◌, ℕ, ◌+◌, ◌<◌, ◌≤◌, [], None, length, is_some, IsSome};
ghost use Rattle.std.specs.Prelude.{IfOk, OnOk, OnErr};
ghost use Rattle.std.specs.Arc.{arc_value};
ghost use Rattle.trace_core.specs.Known.{Known};
ghost use Rattle.session.specs.Solver.{IsSound, packet_at};
ghost use Rattle.session.specs.Loading.{loaded};
ghost use Rattle.session.specs.Sharing.{IsTakable, HasTaken};
ghost use Rattle.session.specs.Solving.{Keeps, Solves};
ghost use Rattle.session.specs.Answering.{Answers};
ghost use Rattle.session.specs.Session.{no_inputs};

use crate::answering::{Conclusion, solve_until_answered};
use crate::counts::Counts;
use crate::inputs::load;
use crate::rounds::Round;
use crate::search::Search;
use crate::sharing::take_in;
use crate::solving::solve;
use sat_base::{Clause, Cube, Ref};
use std::alloc::{AllocError, Global};
use std::marker::Model;
use std::sync::Arc;
use step_table::Steps;
use trace_core::Packet;

/// One incremental solver. Contracts see it as its solver and the names of its published steps.
#[derive(Debug, Drop)]
pub struct Session {
    pub(crate) search: Search,
    // Item n - 1 is the name of own step n.
    pub(crate) names: Vec<Option<Ref>>,
}

impl Model for Session {
    ghost use Rattle.session.specs.Session.{SessionView};

    ghost Value = { SessionView };

    ghost use Rattle.session.specs.Layout.{session_of, IsResting};

    ghost view = { session_of };

    ghost invariant = { IsResting };
}

impl Session {
    /// A session without clauses. Takes no memory. The variant is for the order of decisions, so
    /// that two sessions needn't search the same way: there are eight orders, those of the variants
    /// 0 to 7.
    pub fn new(alloc: Global, variant: u32) -> Session
        ensures { result ≡ record { solver = no_inputs; names = [] } }
    {
        Session {
            search: Search::new(alloc, variant),
            names: Vec::new(alloc),
        }
    }

    /// Adds the clauses of the next job behind the inputs, and makes it the job that is loaded. The
    /// variables of its cube are reserved besides. After want of memory the session is as before.
    pub fn load(&mut self, clauses: &[Clause], cube: &Cube) -> Result<(), AllocError>
        requires clauses { length self.old.solver.inputs + length clauses.now ≤ 16777216 }
        requires jobs { self.old.solver.bound < 1048576 }
        ensures ok { OnOk result (self.new
            ≡ record self.old { solver = loaded self.old.solver clauses.now }) }
        ensures err { OnErr result (self.new ≡ self.old) }
    {
        load(&mut self.search, cube, clauses)
    }

    /// Takes in the last clause of the packet of this place of the shared database, and knows the
    /// place from now on. After want of memory the session is as before.
    pub fn import(&mut self, place: u32, packet: &Arc<Packet>) -> Result<(), AllocError>
        requires place { 1 ≤ place }
        requires unknown { packet_at self.old.solver.packets place ≡ None }
        requires takable { (one : Known) × IsTakable self.old.solver (arc_value packet.now) one }
        ensures ok { OnOk result ((one : Known) × HasTaken self.old.solver self.new.solver place
            (arc_value packet.now) one) }
        ensures names { self.new.names ≡ self.old.names }
        ensures err { OnErr result (self.new ≡ self.old) }
    {
        take_in(&mut self.search, place, packet)
    }

    /// One round of at most `limit` learnt clauses, which are kept: a model of exactly the
    /// variables 1 to the greatest one of the inputs and the cube, a refuted part of the cube with
    /// the own step of its negation, or a pause.
    pub fn solve(&mut self, cube: &Cube, limit: u64) -> Result<Round, AllocError>
        requires some { 0 < limit }
        ensures round { IfOk result (Solves self.old.solver self.new.solver cube.now limit) }
        ensures keeps { Keeps self.old.solver self.new.solver }
        ensures names { self.new.names ≡ self.old.names }
    {
        solve(&mut self.search, cube, limit)
    }

    /// Rounds of `limit` learnt clauses until the cube has its answer. It comes to an end, since no
    /// clause is learnt twice.
    pub fn solve_until_answered(
        &mut self,
        cube: &Cube,
        limit: u64,
    ) -> Result<Conclusion, AllocError>
        requires some { 0 < limit }
        ensures answer { IfOk result (Answers self.old.solver self.new.solver cube.now) }
        ensures keeps { Keeps self.old.solver self.new.solver }
        ensures names { self.new.names ≡ self.old.names }
    {
        solve_until_answered(&mut self.search, cube, limit)
    }

    /// Whether the place of the shared database is known: imported or published. Takes no memory.
    pub fn knows(&self, place: u32) -> bool
        ensures { result ≡ is_some (packet_at self.now.solver.packets place) }
    {
        self.search.packets.knows(place)
    }

    /// How many first places of the shared database are known: each of the places 1 to that number
    /// is, and the next one isn't. Takes no memory.
    pub fn known_front(&self) -> usize
        ensures known { (place : ℕ) → 1 ≤ place → place ≤ result
            → IsSome (packet_at self.now.solver.packets place) }
        ensures next { packet_at self.now.solver.packets (result + 1) ≡ None }
    {
        self.search.packets.front()
    }

    /// The table of the own steps. What every session keeps is told with them.
    pub fn steps(&self) -> &Steps
        ensures value { result.now ≡ self.now.solver.steps }
        ensures sound { IsSound self.now.solver }
    {
        &self.search.steps
    }

    /// The numbers, counted from 1, of the own steps that are learnt clauses, in order.
    pub fn learnt(&self) -> &[u64]
        ensures { result.now ≡ self.now.solver.learnt }
    {
        &self.search.learnt
    }

    /// How much was done since the session was made. It is for measuring: but for the number of
    /// learnt clauses no contract tells it.
    pub fn counts(&self) -> Counts
        ensures learnt { result.learnt ≡ length self.now.solver.learnt }
    {
        let decisions = self.search.trail.decisions();
        let assignments = self.search.trail.assignments();
        Counts {
            learnt: self.search.learnt.len() as u64,
            decisions,
            propagations: assignments.saturating_sub(decisions),
        }
    }

    /// The number of the job that is loaded, 0 before the first.
    pub fn bound(&self) -> u32
        ensures { result ≡ self.now.solver.bound }
    {
        self.search.bound
    }

    /// How many input clauses are loaded, at most 16,777,216.
    pub fn inputs(&self) -> u32
        ensures { result ≡ length self.now.solver.inputs }
    {
        self.search.inputs
    }
}

//! What a session gives to the shared database.

ghost use Rattle.std.specs.Prelude.{◌≡◌, ℕ, ◌<◌, ◌≤◌, ◌++◌, None, length, replicate, AllPairs};
ghost use Rattle.std.specs.Prelude.{Contains, max, IfOk, OnOk, OnErr};
ghost use Rattle.std.specs.Arc.{arc_value};
ghost use Rattle.sat_base.specs.Lit.{IsTautology};
ghost use Rattle.trace_core.specs.Known.{Known};
ghost use Rattle.trace_trim.specs.Packed.{IsPack};
ghost use Rattle.session.specs.Solver.{IsStep, packet_at};
ghost use Rattle.session.specs.Publishing.{AreNamedAnew, IsSharable, Publishes};

use crate::session::Session;
use crate::sharing::know;
use sat_base::Ref;
use std::alloc::{AllocError, Global};
use std::sync::Arc;
use trace_core::Packet;
use trace_trim::{pack, packed_numbers};

impl Session {
    /// The packet of own step `step`, counted from 1, whose clause is no tautology: that step, and
    /// those own steps that it rests on and that aren't published.
    pub fn packet(&self, step: u64) -> Result<Packet, AllocError>
        requires own { (one : Known) × IsStep self.now.solver.steps step one
            × (IsTautology one.clause → ⊥) }
        ensures pack { IfOk result (IsPack self.now.solver.steps self.now.names step) }
        ensures sharable { IfOk result (λ packet. (one : Known)
            → IsStep self.now.solver.steps step one → IsSharable self.now.solver one packet) }
    {
        pack(self.search.alloc, &self.search.steps, &self.names, step)
    }

    /// From now on the place is known, and the own steps of its packet, which is that of own step
    /// `step`, are named as its steps. The step's clause is held. After want of memory the session
    /// is as before.
    pub fn published(
        &mut self,
        step: u64,
        place: u32,
        packet: &Arc<Packet>,
    ) -> Result<(), AllocError>
        requires place { 1 ≤ place }
        requires unknown { packet_at self.old.solver.packets place ≡ None }
        requires pack { IsPack self.old.solver.steps self.old.names step (arc_value packet.now) }
        requires held { (one : Known) × IsStep self.old.solver.steps step one
            × Contains self.old.solver.held one }
        ensures ok { OnOk result (Publishes self.old self.new step place (arc_value packet.now)) }
        ensures err { OnErr result (self.new ≡ self.old) }
    {
        let alloc = self.search.alloc;
        let numbers = packed_numbers(alloc, &self.search.steps, &self.names, step)?;
        let before = self.names.len();
        reach(&mut self.names, step as usize)?;
        match know(&mut self.search, place, packet) {
            Ok(()) => {
                name_steps(&mut self.names, &numbers, place);
                Ok(())
            }
            Err(error) => {
                self.names.truncate(before);
                Err(error)
            }
        }
    }
}

// Has room for the names of so many steps.
fn reach(names: &mut Vec<Option<Ref>>, steps: usize) -> Result<(), AllocError>
    ensures ok { OnOk result ((count : ℕ) × (names.new.items ≡ names.old.items
        ++ replicate count None) × (length names.new.items ≡ max (length names.old.items) steps)) }
    ensures err { OnErr result (names.new.items ≡ names.old.items) }
{
    if steps <= names.len() {
        return Ok(());
    }
    names.resize(steps, None)
}

// Names the own steps of these numbers, in order, as the steps of this place's packet.
fn name_steps(names: &mut Vec<Option<Ref>>, numbers: &[u64], place: u32)
    requires ascending { AllPairs (λ m n. m < n) numbers.now }
    requires low { (number : ℕ) → Contains numbers.now number
        → (1 ≤ number) × (number ≤ length names.old.items) }
    ensures named { AreNamedAnew names.old.items names.new.items place numbers.now }
    ensures size { length names.new.items ≡ length names.old.items }
{
    for (index, number) in numbers.iter().enumerate() {
        names[*number as usize - 1] = Some(Ref::Shared {
            packet: place,
            step: index as u64 + 1,
        });
    }
}

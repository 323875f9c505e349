//! Steps and packets of steps.

ghost use Rattle.std.specs.Prelude.{◌≡◌, IfOk};

use sat_base::{Clause, Items, Ref};
use std::alloc::{AllocError, Global};
use std::marker::Model;

/// The hints of a step, in the order in which a checker takes them.
pub type Hints = Items<Ref>;

/// Steps in order.
pub type Steps = Items<Step>;

/// A step of a derivation: a clause, the hints that prove it, and the greatest tag among the
/// clauses that these name, 0 without hints.
#[derive(Debug, Drop)]
pub struct Step {
    pub clause: Clause,
    pub hints: Hints,
    pub tag: u32,
}

impl Step {
    /// An equal step.
    pub fn copy(&self, alloc: Global) -> Result<Step, AllocError>
        ensures { IfOk result (λ step. step ≡ self.now) }
    {
        Ok(Step {
            clause: self.clause.copy(alloc)?,
            hints: Items::of(self.hints.items().to_vec(alloc)?),
            tag: self.tag,
        })
    }
}

/// A packet of the shared database: steps that prove its last clause, never none. In a packet
/// `Own(i)` is its i-th step. Contracts see it as the list of its steps.
#[derive(Debug, Drop)]
pub struct Packet {
    pub steps: Steps,
}

impl Model for Packet {
    ghost use Rattle.std.specs.Prelude.{List, ◌<◌, length};
    ghost use Rattle.trace_core.specs.declared.derivation.Step.{Step};

    ghost Value = { List Step };

    ghost view = { λ packet. packet.steps };

    ghost invariant = { λ packet. 0 < length packet.steps };
}

impl Packet {
    /// An equal packet.
    pub fn copy(&self, alloc: Global) -> Result<Packet, AllocError>
        ensures { IfOk result (λ packet. packet ≡ self.now) }
    {
        Ok(Packet {
            steps: copy_steps(&self.steps, alloc)?,
        })
    }
}

/// Equal steps.
fn copy_steps(steps: &Steps, alloc: Global) -> Result<Steps, AllocError>
    ensures { IfOk result (λ copies. copies ≡ steps.now) }
{
    let mut copies = Vec::with_capacity(alloc, steps.items().len())?;
    for step in steps.items() {
        copies.push(step.copy(alloc)?)?;
    }
    Ok(Items::of(copies))
}

//! Where in an output an audit stands.

ghost use Rattle.std.specs.Prelude.{◌≡◌, ◌↔◌, ℕ, Contains, [], ◌∷◌, ◌++◌, map, None, IfOk, IfSome};
ghost use Rattle.std.specs.Prelude.{IsTrue};
ghost use Rattle.trace_core.specs.Known.{known};
ghost use Rattle.trace_core.specs.Trace.{IsOkStep, known_of};
ghost use Rattle.verdict_audit.specs.Audit.{IsRefuted};

use sat_base::{Clause, Cube};
use std::alloc::{AllocError, Global};
use std::marker::Model;
use trace_core::{Checker, Step};

/// A part, and the steps so far of its trace, all of which were ok. Contracts see the part, the
/// input clauses, and the steps.
#[derive(Debug, Drop)]
pub(crate) struct Proof {
    part: Cube,
    checker: Checker,
    steps: Vec<Step>,
}

impl Model for Proof {
    ghost use Rattle.std.specs.Prelude.{◌≡◌, map};
    ghost use Rattle.trace_core.specs.Trace.{known_of};
    ghost use Rattle.verdict_audit.specs.Proof.{Proof};

    ghost Value = { Proof };

    ghost view = { λ proof. record {
      part = proof.part;
      inputs = proof.checker.inputs;
      steps = proof.steps.items;
    } };

    ghost invariant = { λ proof. proof.checker.steps ≡ map known_of proof.steps.items };
}

impl Proof {
    /// A part without a step, over the inputs of this checker.
    pub(crate) fn begin(alloc: Global, part: Cube, checker: Checker) -> Proof
        requires { checker.steps ≡ [] }
        ensures { result ≡ record { part = part; inputs = checker.inputs; steps = [] } }
    {
        Proof {
            part,
            checker,
            steps: Vec::new(alloc),
        }
    }

    /// The steps so far.
    pub(crate) fn steps(&self) -> &[Step]
        ensures { result.now ≡ self.now.steps }
    {
        &self.steps
    }

    /// Takes a step where it is ok.
    pub(crate) fn with(self, step: Step) -> Result<Option<Proof>, AllocError>
        ensures taken { IfOk result
            (λ found. IfSome found
            (λ proof. IsOkStep (known self.inputs [] (map known_of self.steps)) step
            × (proof
            ≡ record {
              part = self.part;
              inputs = self.inputs;
              steps = self.steps
                  ++ step ∷ [];
            }))) }
        ensures refused { IfOk result
            (λ found. found ≡ None
            → ¬ IsOkStep (known self.inputs [] (map known_of self.steps)) step) }
    {
        let Proof {
            part,
            mut checker,
            mut steps,
        } = self;
        if !checker.check(&step)? {
            return Ok(None);
        }
        steps.push(step)?;
        Ok(Some(Proof {
            part,
            checker,
            steps,
        }))
    }

    /// The checker of the inputs, without the steps.
    pub(crate) fn into_checker(self) -> Checker
        ensures inputs { result.inputs ≡ self.inputs }
        ensures steps { result.steps ≡ [] }
    {
        let mut checker = self.checker;
        checker.forget_steps();
        checker
    }

    /// Whether the last step refutes the part.
    pub(crate) fn is_refuted(&self, alloc: Global) -> Result<bool, AllocError>
        ensures { IfOk result (λ holds. IsTrue holds ↔ IsRefuted self.now.part self.now.steps) }
    {
        refutes(alloc, &self.part, &self.steps)
    }
}

// Whether the last of these steps refutes the part.
fn refutes(alloc: Global, part: &Cube, steps: &[Step]) -> Result<bool, AllocError>
    ensures { IfOk result (λ holds. IsTrue holds ↔ IsRefuted part.now steps.now) }
{
    if steps.is_empty() {
        return Ok(false);
    }
    let last = &steps[steps.len() - 1];
    let negated = part.negated(alloc)?;
    Ok(is_same(&negated, &last.clause))
}

// Whether two clauses have the same literals.
fn is_same(clause: &Clause, other: &Clause) -> bool
    ensures { IsTrue result ↔ ((lit : ℕ) → Contains clause.now lit ↔ Contains other.now lit) }
{
    // Bring that the literals of both are sets in order.
    let _ = clause.lits();
    let _ = other.lits();
    *clause == *other
}

/// Where in an output an audit stands.
#[derive(Debug, Drop)]
pub(crate) enum Place {
    /// The first line of a block or a last line comes next.
    Block,
    /// The model of the job whose block has begun.
    Model,
    /// The refuted part of the job whose block has begun.
    Part,
    /// A step of this proof, the first line of a block, or a last line.
    Step(Proof),
    /// Nothing, behind the last line.
    End,
}

/// The blocks so far: how many have begun, and how many of them have and haven't a model or a part.
#[derive(Clone, Copy, Debug)]
pub(crate) struct Tally {
    pub(crate) begun: u64,
    pub(crate) proved: u32,
    pub(crate) unproved: u32,
}

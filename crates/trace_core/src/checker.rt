//! The checker of steps.

ghost use Rattle.std.specs.Prelude.{◌≡◌, ◌<◌, ◌↔◌, [], ◌∷◌, ◌++◌, false, length, IfOk, OnOk, OnErr};
ghost use Rattle.std.specs.Prelude.{IsTrue};

use crate::Step;
use crate::block::KnownClauses;
use crate::database::Database;
use crate::marks::Mark;
use crate::room::make_room;
use crate::step_check::is_ok;
use sat_base::{Clause, Lit};
use std::alloc::{AllocError, Global};
use std::marker::Model;

/// A checker of the steps of one derivation: its input clauses, and the steps that it has accepted.
/// Contracts see these two lists.
///
/// A check takes time in proportion to the literals of the clause and of the hinted clauses. A
/// known clause costs 16 bytes and 4 more a literal; besides, each literal up to the greatest one
/// costs a byte.
#[derive(Debug, Drop)]
pub struct Checker {
    database: Database,
    marks: Vec<Mark>,
    set: Vec<Lit>,
}

impl Model for Checker {
    ghost use Rattle.trace_core.specs.Checked.{Checked};

    ghost Value = { Checked };

    ghost use Rattle.trace_core.specs.Ready.{IsReady};

    ghost view = { λ checker. record {
      inputs = checker.database.inputs;
      steps = checker.database.steps;
    } };

    ghost invariant = { λ checker. IsReady checker.marks.items checker.set.items
        checker.database.inputs checker.database.steps };
}

impl Checker {
    ghost use Rattle.trace_core.specs.Known.{Known, known};
    ghost use Rattle.trace_core.specs.Trace.{IsOkStep, known_of};

    /// A checker without inputs. Takes no memory.
    pub fn new(alloc: Global) -> Checker
        ensures inputs { result.inputs ≡ [] }
        ensures steps { result.steps ≡ [] }
    {
        Checker {
            database: Database {
                inputs: KnownClauses::new(alloc),
                steps: KnownClauses::new(alloc),
            },
            marks: Vec::new(alloc),
            set: Vec::new(alloc),
        }
    }

    /// Adds an input clause and its tag, before the first step. Where memory is refused the checker
    /// stays as it was.
    pub fn add_input(&mut self, clause: &Clause, tag: u32) -> Result<(), AllocError>
        requires no_steps { self.old.steps ≡ [] }
        requires room { length self.old.inputs < 16777216 }
        ensures added { OnOk result
            (self.new.inputs ≡ self.old.inputs ++ record { clause = clause.now; tag = tag } ∷ []) }
        ensures steps { self.new.steps ≡ self.old.steps }
        ensures err { OnErr result (self.new ≡ self.old) }
    {
        let lits = clause.lits();
        make_room(&mut self.marks, lits)?;
        self.database.inputs.push(lits, tag)?;
        Ok(())
    }

    /// Checks a step: true exactly where it is ok over the inputs and the steps that were added,
    /// with exact tag. Then the step is added, and can be named by `Own` and its number, counted
    /// from 1. A step that is not ok changes nothing, and neither does a refusal of memory. A
    /// `Shared` hint names nothing here.
    pub fn check(&mut self, step: &Step) -> Result<bool, AllocError>
        ensures exact { IfOk result
            (λ ok. IsTrue ok ↔ IsOkStep (known self.old.inputs [] self.old.steps) step.now) }
        ensures inputs { self.new.inputs ≡ self.old.inputs }
        ensures added { IfOk result
            (λ ok. IsTrue ok → self.new.steps ≡ self.old.steps ++ known_of step.now ∷ []) }
        ensures refused { IfOk result (λ ok. ok ≡ false → self.new ≡ self.old) }
        ensures err { OnErr result (self.new ≡ self.old) }
    {
        let lits = step.clause.lits();
        make_room(&mut self.marks, lits)?;
        if !is_ok(&mut self.marks, &mut self.set, &self.database, step)? {
            return Ok(false);
        }
        self.database.steps.push(lits, step.tag)?;
        Ok(true)
    }

    /// How many input clauses there are.
    pub fn input_count(&self) -> usize
        ensures { result ≡ length self.now.inputs }
    {
        self.database.inputs.len()
    }

    /// Forgets all steps: `Own` names none of them any more, and the next one that is added has the
    /// number 1 again. The inputs stay, and further ones may be added. Keeps its memory, so that one
    /// checker serves many derivations over growing inputs.
    pub fn forget_steps(&mut self)
        ensures inputs { self.new.inputs ≡ self.old.inputs }
        ensures steps { self.new.steps ≡ [] }
    {
        self.database.steps.clear();
    }
}

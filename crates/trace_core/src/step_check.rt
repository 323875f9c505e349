//! The check of one step.

ghost use Rattle.std.specs.Prelude.{◌≡◌, ◌↔◌, [], length, IfOk, IsTrue};
ghost use Rattle.trace_core.specs.Marking.{AreFree, HasRoom};
ghost use Rattle.trace_core.specs.Checked.{known_to};
ghost use Rattle.trace_core.specs.Ready.{HaveRoomFor};
ghost use Rattle.trace_core.specs.Trace.{IsOkStep};

use crate::Step;
use crate::database::Database;
use crate::marks::Mark;
use crate::unit_propagation::derives;
use sat_base::Lit;
use std::alloc::AllocError;

/// Whether the step is ok over the known clauses, with exact tag. Nothing holds before and after
/// the call, also where it wants memory.
pub(crate) fn is_ok(
    marks: &mut [Mark],
    set: &mut Vec<Lit>,
    database: &Database,
    step: &Step,
) -> Result<bool, AllocError>
    requires clause_room { HasRoom (length marks.old) step.now.clause }
    requires inputs_room { HaveRoomFor (length marks.old) database.now.inputs }
    requires steps_room { HaveRoomFor (length marks.old) database.now.steps }
    requires free { AreFree marks.old }
    requires empty { set.old.items ≡ [] }
    ensures exact { IfOk result
        (λ ok. IsTrue ok ↔ IsOkStep (known_to database.now.inputs database.now.steps) step.now) }
    ensures free { AreFree marks.new }
    ensures empty { set.new.items ≡ [] }
{
    let hints = step.hints.items();
    let Some(tag) = database.greatest_tag(hints) else {
        return Ok(false);
    };
    if tag != step.tag {
        return Ok(false);
    }
    let lits = step.clause.lits();
    if step.clause.is_tautology() {
        return Ok(lits.len() == 2 && hints.is_empty());
    }
    derives(marks, set, database, lits, hints)
}

//! Room for marks.

ghost use Rattle.std.specs.Prelude.{◌≡◌, ℕ, ◌≤◌, OnOk, vec_len};
ghost use Rattle.trace_core.specs.Marking.{holds, HasRoom};

use crate::marks::Mark;
use sat_base::Lit;
use std::alloc::AllocError;

/// Makes sure that each literal of the clause and its negation have a mark. New marks are free.
pub(crate) fn make_room(marks: &mut Vec<Mark>, clause: &[Lit]) -> Result<(), AllocError>
    ensures room { OnOk result (HasRoom (vec_len marks.new) clause.now) }
    ensures grown { vec_len marks.old ≤ vec_len marks.new }
    ensures holding { (lit : ℕ) → holds marks.new.items lit ≡ holds marks.old.items lit }
{
    for lit in clause {
        let needed = 2 * lit.var() as usize + 2;
        if marks.len() < needed {
            marks.resize(needed, Mark::Free)?;
        }
    }
    Ok(())
}

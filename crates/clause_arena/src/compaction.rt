//! Clauses that move down within their block.

ghost use Rattle.std.specs.Prelude.{◌≡◌, ℕ, ◌+◌, ◌-◌, ◌<◌, ◌≤◌, Bool, false, List, length, take};
ghost use Rattle.std.specs.Prelude.{slice_index_or};
ghost use Rattle.clause_arena.specs.Named.{Named};
ghost use Rattle.clause_arena.specs.Layout.{laid_clauses, IsLaidOut};
ghost use Rattle.clause_arena.specs.Kept.{kept_of};
ghost use Rattle.clause_arena.specs.Compaction.{IsUnderway, CanMove};

use crate::names::Names;
use sat_base::Lit;

// Where the next clause begins, and how many clauses in front of it are kept.
#[derive(Clone, Copy, Debug)]
struct Cursor {
    start: usize,
    kept: usize,
}

/// Moves the clauses that have `true` in `keep` to the front, each behind the one that was kept
/// before it. The answer is their number. What stands behind their bounds and names then means
/// nothing.
pub(crate) fn compact(
    lits: &mut Vec<Lit>,
    bounds: &mut Vec<u32>,
    names: &mut Names,
    keep: &[bool],
) -> usize
    requires laid { IsLaidOut lits.old.items bounds.old.items names.old }
    requires size { length keep.now ≡ length bounds.old.items - 1 }
    ensures laid { IsLaidOut lits.new.items (take (result + 1) bounds.new.items) names.new }
    ensures kept { laid_clauses lits.new.items (take (result + 1) bounds.new.items) names.new
        ≡ kept_of keep.now (laid_clauses lits.old.items bounds.old.items names.old) }
    ensures few { result ≤ length keep.now }
{
    if bounds.is_empty() {
        return 0;
    }
    let start = bounds[0] as usize;
    let mut at = Cursor { start, kept: 0 };
    for id in 0..keep.len() {
        at = keep_one(lits, bounds, names, id, at, keep[id]);
    }
    at.kept
}

// Moves the clause down, if it stays, and goes on to the next.
fn keep_one(
    lits: &mut Vec<Lit>,
    bounds: &mut Vec<u32>,
    names: &mut Names,
    id: usize,
    at: Cursor,
    stays: bool,
) -> Cursor
    requires { CanMove lits.old.items bounds.old.items names.old id at.kept at.start }
    ensures { (all ends : List ℕ) (named : List Named) (keep : List Bool)
        → IsLaidOut all ends named
        → id < length keep
        → slice_index_or keep id false ≡ stays
        → IsUnderway all ends named keep id at.kept at.start
        lits.old.items bounds.old.items names.old
        → IsUnderway all ends named keep (id + 1) result.kept result.start
        lits.new.items bounds.new.items names.new }
{
    let end = bounds[id + 1] as usize;
    if !stays {
        return Cursor {
            start: end,
            kept: at.kept,
        };
    }
    let front = bounds[at.kept] as usize;
    lits.copy_within(at.start..end, front);
    bounds[at.kept + 1] = (front + (end - at.start)) as u32;
    names.copy(id, at.kept);
    Cursor {
        start: end,
        kept: at.kept + 1,
    }
}

//! A decision and propagation, to a conflict.

ghost use Rattle.std.specs.Prelude.{◌≡◌, IfSome, IsTrue, []};
ghost use Rattle.propagate.specs.Pairing.{IsSettled};
ghost use Rattle.propagate.specs.Store.{AreNewFrom};
ghost use Rattle.analyze.specs.Conflict.{IsConflict, IsReady};

use propagate::{Store, propagate};
use sat_base::Lit;
use trail_core::Trail;

// Propagates at level 0 on an empty trail. True where no clause is false.
fn begin(store: &mut Store, trail: &mut Trail) -> bool
    requires vars { store.old.vars ≡ trail.old.vars }
    requires all_new { AreNewFrom store.old 0 }
    requires empty { trail.old.entries ≡ [] }
    requires depth { trail.old.depth ≡ 0 }
    ensures store_vars { store.new.vars ≡ store.old.vars }
    ensures vars { trail.new.vars ≡ trail.old.vars }
    ensures depth { trail.new.depth ≡ 0 }
    ensures ready { IsTrue result → IsReady store.new.clauses trail.new }
    ensures settled { IsTrue result → IsSettled store.new trail.new }
{
    // Brings that the clauses have reserved variables only.
    let _ = store.arena();
    propagate(store, trail).is_none()
}

/// Propagates on an empty trail, decides the literal, and propagates again. The answer is the
/// number of a clause that is false then; none where there is none, where one is false without the
/// decision, and where the literal is assigned or its variable isn't reserved.
pub fn conflict_of(store: &mut Store, trail: &mut Trail, vars: u32, lit: Lit) -> Option<usize>
    requires reserved { trail.old.vars ≡ vars }
    requires vars { store.old.vars ≡ vars }
    requires all_new { AreNewFrom store.old 0 }
    requires empty { trail.old.entries ≡ [] }
    requires depth { trail.old.depth ≡ 0 }
    ensures vars { trail.new.vars ≡ vars }
    ensures conflict { IfSome result (IsConflict store.new.clauses trail.new) }
{
    if !begin(store, trail) {
        return None;
    }
    if trail.value(lit).is_some() || lit.var() > vars {
        return None;
    }
    trail.open_level();
    trail.assign(lit, None);
    // Brings that the clauses have reserved variables only, and so has the trail.
    let _ = store.arena();
    let _ = trail.depth();
    propagate(store, trail)
}

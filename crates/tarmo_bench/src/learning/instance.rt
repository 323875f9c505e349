//! A text, its conflict, and what that teaches.

ghost use Rattle.std.specs.Prelude.{◌≡◌, ◌≤◌, ℕ, IfOk, IfSome, IsTrue};
ghost use Rattle.sat_base.specs.Limits.{greatest_variable};
ghost use Rattle.propagate.specs.Store.{AreWithin, AreNewFrom};
ghost use Rattle.tarmo_bench.specs.Prepared.{IsPrepared};

use crate::learning::search::conflict_of;
use analyze::{Learnt, Scratch, learn};
use propagate::Store;
use sat_base::{Clause, Lit, Ref};
use std::alloc::{AllocError, Global};
use trail_core::Trail;

// Three pigeons in two holes.
const PIGEONS: [[i32; 2]; 9] = [
    [1, 2],
    [3, 4],
    [5, 6],
    [-1, -3],
    [-1, -5],
    [-3, -5],
    [-2, -4],
    [-2, -6],
    [-4, -6],
];

/// A false clause above level 0, and what an analysis reads.
#[derive(Debug, Drop)]
pub struct Conflict {
    store: Store,
    trail: Trail,
    names: Vec<Ref>,
    tags: Vec<u32>,
    id: usize,
}

fn is_within(clause: &Clause, vars: u32) -> bool
    ensures { IsTrue result → AreWithin vars clause.now }
{
    clause.lits().iter().all(|lit| lit.var() <= vars)
}

// The clause of these numbers.
fn clause_of(alloc: Global, numbers: &[i32]) -> Result<Clause, AllocError> {
    let mut lits = Vec::new(alloc);
    for number in numbers {
        if let Some(lit) = Lit::of(*number) {
            lits.push(lit)?;
        }
    }
    Clause::from_lits(alloc, &lits)
}

// Adds the clause under this name to a store whose clauses are all new, if its variables are
// reserved.
fn add(store: &mut Store, vars: u32, clause: &Clause, name: Ref) -> Result<(), AllocError>
    requires vars { store.old.vars ≡ vars }
    requires all_new { AreNewFrom store.old 0 }
    ensures vars { store.new.vars ≡ vars }
    ensures all_new { AreNewFrom store.new 0 }
{
    if !is_within(clause, vars) {
        return Ok(());
    }
    store.add(clause, 1, name)?;
    Ok(())
}

// The pigeons, and a clause of one literal for each further variable.
fn load(alloc: Global, vars: u32) -> Result<Store, AllocError>
    requires { vars ≤ greatest_variable }
    ensures vars { IfOk result (λ store. store.vars ≡ vars) }
    ensures all_new { IfOk result (λ store. AreNewFrom store 0) }
{
    let mut store = Store::new(alloc);
    store.reserve(vars)?;
    let mut number = 0u32;
    for pair in &PIGEONS {
        number = number.saturating_add(1);
        let clause = clause_of(alloc, pair.as_slice())?;
        add(&mut store, vars, &clause, Ref::Input(number))?;
    }
    for var in 7..vars + 1 {
        number = number.saturating_add(1);
        let clause = clause_of(alloc, &[var as i32])?;
        add(&mut store, vars, &clause, Ref::Input(number))?;
    }
    Ok(store)
}

/// The conflict of the pigeons after the first one is put into the first hole. No clause of theirs
/// has a variable of level 0, so an analysis reads no name of a unit clause, and all are the same.
pub fn prepare(alloc: Global, vars: u32) -> Result<Option<Conflict>, AllocError>
    requires { vars ≤ greatest_variable }
    ensures { IfOk result (λ found. IfSome found (λ conflict. IsPrepared conflict vars)) }
{
    let mut store = load(alloc, vars)?;
    let mut trail = Trail::new(alloc);
    trail.reserve(vars)?;
    let Some(first) = Lit::of(1) else {
        return Ok(None);
    };
    let Some(id) = conflict_of(&mut store, &mut trail, vars, first) else {
        return Ok(None);
    };
    Ok(Some(Conflict {
        store,
        trail,
        names: vec![in alloc; Ref::Input(0); vars as usize]?,
        tags: vec![in alloc; 0u32; vars as usize]?,
        id,
    }))
}

/// What the conflict teaches.
pub fn learn_once(
    alloc: Global,
    scratch: &mut Scratch,
    conflict: &Conflict,
) -> Result<Learnt, AllocError>
    requires prepared { (vars : ℕ) × IsPrepared conflict.now vars × (vars ≤ scratch.old) }
    ensures { scratch.new ≡ scratch.old }
{
    learn(
        alloc,
        scratch,
        conflict.store.arena(),
        &conflict.names,
        &conflict.tags,
        &conflict.trail,
        conflict.id,
    )
}

//! Inputs of a search.

ghost use Rattle.std.specs.Prelude.{◌≡◌, ◌+◌, ◌<◌, ◌≤◌, ◌∷◌, [], length, take, OnOk, OnErr};
ghost use Rattle.sat_base.specs.Lit.{IsLitSet, greatest_of, greatest_of_all};
ghost use Rattle.session.specs.Searching.{IsSearching, solver_of};
ghost use Rattle.session.specs.Loading.{HasInputsOnly, HasInputsMore, loaded};

use crate::search::Search;
use sat_base::{Clause, Cube, Lit, Ref};
use std::alloc::AllocError;

/// Adds the clauses of the next job behind the inputs, and makes it the job that is loaded. The
/// variables of its cube are reserved besides. After want of memory the solver is as before.
pub(crate) fn load(search: &mut Search, cube: &Cube, clauses: &[Clause]) -> Result<(), AllocError>
    requires kept { IsSearching search.old }
    requires zero { search.old.trail.depth ≡ 0 }
    requires few { search.old.inputs + length clauses.now ≤ 16777216 }
    requires jobs { search.old.bound < 1048576 }
    ensures kept { IsSearching search.new }
    ensures zero { search.new.trail.depth ≡ 0 }
    ensures ok { OnOk result (solver_of search.new ≡ loaded (solver_of search.old) clauses.now) }
    ensures err { OnErr result (solver_of search.new ≡ solver_of search.old) }
{
    let vars = greatest_in(clauses);
    reserve(search, vars.max(greatest_variable(cube.lits())))?;
    enter(search, vars)?;
    let job = search.bound + 1;
    let before = search.store.arena().len();
    let (greatest, inputs, bound) = (search.greatest, search.inputs, search.bound);
    match push_clauses(search, clauses, job) {
        Ok(()) => {
            search.bound = job;
            Ok(())
        }
        Err(error) => {
            search.store.truncate(before);
            search.greatest = greatest;
            search.inputs = inputs;
            search.bound = bound;
            Err(error)
        }
    }
}

// Adds inputs of this job, whose variables are in the order. After want of memory some of them may
// be there.
fn push_clauses(search: &mut Search, clauses: &[Clause], job: u32) -> Result<(), AllocError>
    requires kept { IsSearching search.old }
    requires zero { search.old.trail.depth ≡ 0 }
    requires few { search.old.inputs + length clauses.now ≤ 16777216 }
    requires entered { greatest_of_all clauses.now ≤ search.old.order.vars }
    requires job { search.old.bound ≤ job }
    ensures kept { IsSearching search.new }
    ensures parts { HasInputsOnly search.old search.new }
    ensures ok { OnOk result (HasInputsMore search.old search.new clauses.now job) }
{
    for clause in clauses {
        push_clause(search, clause, job)?;
    }
    Ok(())
}

// Adds an input of this job, whose variables are in the order.
fn push_clause(search: &mut Search, clause: &Clause, job: u32) -> Result<(), AllocError>
    requires kept { IsSearching search.old }
    requires zero { search.old.trail.depth ≡ 0 }
    requires few { search.old.inputs < 16777216 }
    requires entered { greatest_of clause.now ≤ search.old.order.vars }
    requires job { search.old.bound ≤ job }
    ensures kept { IsSearching search.new }
    ensures parts { HasInputsOnly search.old search.new }
    ensures inputs { OnOk result (search.new.inputs ≡ search.old.inputs + 1) }
    ensures ok { OnOk result (HasInputsMore search.old search.new (clause.now ∷ []) job) }
{
    let number = search.inputs + 1;
    search.store.add(clause, job, Ref::Input(number))?;
    search.greatest = search.greatest.max(greatest_variable(clause.lits()));
    search.inputs = number;
    search.bound = job;
    Ok(())
}

/// Reserves the variables 1 to `vars`; those that are reserved already stay so. The solver stays as
/// it is.
pub(crate) fn reserve(search: &mut Search, vars: u32) -> Result<(), AllocError>
    requires kept { IsSearching search.old }
    ensures kept { IsSearching search.new }
    ensures solver { solver_of search.new ≡ solver_of search.old }
    ensures depth { search.new.trail.depth ≡ search.old.trail.depth }
    ensures numbers { (search.new.greatest ≡ search.old.greatest)
        × (search.new.inputs ≡ search.old.inputs) }
    ensures clauses { search.new.store.clauses ≡ search.old.store.clauses }
    ensures order { search.new.order ≡ search.old.order }
    ensures ok { OnOk result (vars ≤ search.new.trail.vars) }
{
    search.store.reserve(vars)?;
    search.scratch.reserve(vars)?;
    grow_units(&mut search.units, vars as usize)?;
    grow_tags(&mut search.tags, vars as usize)?;
    search.trail.reserve(vars)?;
    // Brings `IsTrail` of the trail with more variables.
    let _ = search.trail.depth();
    Ok(())
}

// Enters the variables 1 to `vars`, which are reserved, into the order of decisions.
fn enter(search: &mut Search, vars: u32) -> Result<(), AllocError>
    requires kept { IsSearching search.old }
    requires reserved { vars ≤ search.old.trail.vars }
    requires few { vars ≤ 8388607 }
    ensures kept { IsSearching search.new }
    ensures parts { search.new ≡ record search.old { order = search.new.order } }
    ensures ok { OnOk result (vars ≤ search.new.order.vars) }
{
    search.order.reserve(vars)
}

fn grow_units(units: &mut Vec<Ref>, places: usize) -> Result<(), AllocError>
    ensures front { take (length units.old.items) units.new.items ≡ units.old.items }
    ensures ok { OnOk result (places ≤ length units.new.items) }
{
    if places <= units.len() {
        return Ok(());
    }
    units.resize(places, Ref::Input(0))
}

fn grow_tags(tags: &mut Vec<u32>, places: usize) -> Result<(), AllocError>
    ensures front { take (length tags.old.items) tags.new.items ≡ tags.old.items }
    ensures ok { OnOk result (places ≤ length tags.new.items) }
{
    if places <= tags.len() {
        return Ok(());
    }
    tags.resize(places, 0)
}

/// The greatest variable of a set of literals, which ascend by variable; 0 if there is none.
pub(crate) fn greatest_variable(lits: &[Lit]) -> u32
    requires { IsLitSet lits.now }
    ensures value { result ≡ greatest_of lits.now }
    ensures few { result ≤ 8388607 }
{
    let count = lits.len();
    if count == 0 {
        return 0;
    }
    lits[count - 1].var()
}

// The greatest variable of the clauses, 0 if there is none.
fn greatest_in(clauses: &[Clause]) -> u32
    ensures value { result ≡ greatest_of_all clauses.now }
    ensures few { result ≤ 8388607 }
{
    let mut greatest: u32 = 0;
    for clause in clauses {
        greatest = greatest.max(greatest_variable(clause.lits()));
    }
    greatest
}

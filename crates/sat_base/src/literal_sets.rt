//! Lists of literals: their order, their negations and their variables.

ghost use Rattle.std.specs.Prelude.{◌≡◌, ℕ, ◌↔◌, IfOk, map, All, Contains, IsTrue};
ghost use Rattle.sat_base.specs.Lit.{IsLit, IsLitSet, IsTautology};
ghost use Rattle.sat_base.specs.Lit.{opposite, is_ascending, greatest_of};

use crate::Lit;
use std::alloc::{AllocError, Global};

// Each literal is one. The type keeps that, and a proof sees it at a call on the literal.
pub(crate) fn look_at(lits: &[Lit])
    ensures { All IsLit lits.now }
{
    for lit in lits {
        let _ = lit.code();
    }
}

// The set of these literals, in ascending order.
pub(crate) fn set_of(alloc: Global, lits: &[Lit]) -> Result<Vec<Lit>, AllocError>
    ensures set { IfOk result (λ set. IsLitSet set.items) }
    ensures members { IfOk result
        (λ set. (lit : ℕ) → Contains set.items lit ↔ Contains lits.now lit) }
{
    look_at(lits);
    let mut set = Vec::from_slice(alloc, lits)?;
    set.sort()?;
    set.dedup();
    Ok(set)
}

// The negation of each literal, in the same order.
pub(crate) fn negations(alloc: Global, lits: &[Lit]) -> Result<Vec<Lit>, AllocError>
    ensures { IfOk result (λ negated. negated.items ≡ map opposite lits.now) }
{
    lits.iter().map(|lit| lit.negated()).collect(alloc)
}

// Whether both literals of a variable stand in the set: they would stand side by side.
pub(crate) fn has_both_signs(lits: &[Lit]) -> bool
    requires { IsTrue (is_ascending lits.now) }
    ensures { IsTrue result ↔ IsTautology lits.now }
{
    for i in 1..lits.len() {
        if lits[i] == lits[i - 1].negated() {
            return true;
        }
    }
    false
}

/// Whether each literal is greater than the one before it: then the list is a set in its order.
pub fn is_strictly_ascending(lits: &[Lit]) -> bool
    ensures { result ≡ is_ascending lits.now }
{
    let mut bound = 0;
    for lit in lits {
        if lit.code() <= bound {
            return false;
        }
        bound = lit.code();
    }
    true
}

/// The greatest variable of the literals, 0 if there is none.
pub fn greatest_variable(lits: &[Lit]) -> u32
    ensures { result ≡ greatest_of lits.now }
{
    let mut greatest: u32 = 0;
    for lit in lits {
        greatest = greatest.max(lit.var());
    }
    greatest
}

//! Clauses.

ghost use Rattle.std.specs.Prelude.{◌≡◌, ℕ, nat_eq, ◌↔◌, IfOk, Contains, IsTrue};
ghost use Rattle.std.specs.Cmp.Lexicographic.{pointwise};
ghost use Rattle.std.specs.Cmp.Rules.{comparing};
ghost use Rattle.std.proofs.Common.{rules};
ghost use Rattle.std.proofs.lemmas.Cmp.{nat_list_eq_equiv};
ghost use Rattle.sat_base.specs.Lit.{IsLitSet, IsTautology, is_ascending};
ghost use Rattle.sat_base.specs.Truth.{clause_true};

use crate::literal_sets::{has_both_signs, look_at, set_of};
use crate::{Assign, Lit};
use std::alloc::{AllocError, Global};
use std::marker::Model;

/// A clause: a set of literals, of which one has to be true. Both literals of a variable may stand
/// in it. Contracts see it as its literals in strictly ascending order.
#[derive(Debug, Drop)]
pub struct Clause {
    lits: Vec<Lit>,
}

impl Model for Clause {
    ghost use Rattle.std.specs.Prelude.{ℕ, List};
    ghost use Rattle.sat_base.specs.Lit.{IsLitSet};

    ghost Value = { List ℕ };

    ghost view = { λ clause. clause.lits.items };

    ghost invariant = { λ clause. IsLitSet clause.lits.items };
}

impl Clause {
    /// The clause of exactly these literals, in any order and with any repeats.
    pub fn from_lits(alloc: Global, lits: &[Lit]) -> Result<Clause, AllocError>
        ensures members { IfOk result
            (λ clause. (lit : ℕ) → Contains clause lit ↔ Contains lits.now lit) }
    {
        let lits = set_of(alloc, lits)?;
        Ok(Clause { lits })
    }

    /// The clause of literals that are in strictly ascending order already. Takes no memory.
    pub fn of_ascending(lits: Vec<Lit>) -> Clause
        requires { IsTrue (is_ascending lits.items) }
        ensures { result ≡ lits.items }
    {
        look_at(&lits);
        Clause { lits }
    }

    /// The literals in strictly ascending order.
    pub fn lits(&self) -> &[Lit]
        ensures value { result.now ≡ self.now }
        ensures set { IsLitSet self.now }
    {
        &self.lits
    }

    /// Whether both literals of a variable stand in it, so that every assignment makes it true.
    pub fn is_tautology(&self) -> bool
        ensures { IsTrue result ↔ IsTautology self.now }
    {
        has_both_signs(&self.lits)
    }

    /// Whether the assignment makes one of its literals true.
    pub fn is_true(&self, a: &Assign) -> bool
        ensures { result ≡ clause_true a.now self.now }
    {
        let values = a.values();
        self.lits.iter().any(|lit| lit.is_true(values))
    }

    /// The literals back, in strictly ascending order. Takes no memory.
    pub fn into_lits(self) -> Vec<Lit>
        ensures value { result.items ≡ self }
        ensures set { IsLitSet self }
    {
        self.lits
    }

    /// An equal clause.
    pub fn copy(&self, alloc: Global) -> Result<Clause, AllocError>
        ensures { IfOk result (λ clause. clause ≡ self.now) }
    {
        Ok(Clause {
            lits: self.lits.to_vec(alloc)?,
        })
    }
}

impl PartialEq for Clause {
    ghost eq = { pointwise nat_eq };

    ghost laws = { Prim.search (comparing, nat_list_eq_equiv, rules) };

    fn eq(&self, other: &Clause) -> bool {
        self.lits == other.lits
    }
}

impl Eq for Clause {
    ghost laws = { nat_list_eq_equiv };
}

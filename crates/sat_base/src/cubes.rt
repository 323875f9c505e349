//! Cubes.

ghost use Rattle.std.specs.Prelude.{◌≡◌, ℕ, nat_eq, ◌↔◌, IfOk, Contains, IsTrue};
ghost use Rattle.std.specs.Cmp.Lexicographic.{pointwise};
ghost use Rattle.std.specs.Cmp.Rules.{comparing};
ghost use Rattle.std.proofs.Common.{rules};
ghost use Rattle.std.proofs.lemmas.Cmp.{nat_list_eq_equiv};
ghost use Rattle.sat_base.specs.Lit.{IsLitSet, opposite, is_ascending};
ghost use Rattle.sat_base.specs.Truth.{cube_true};

use crate::literal_sets::{look_at, negations, set_of};
use crate::{Assign, Clause, Lit};
use std::alloc::{AllocError, Global};
use std::marker::Model;

/// A cube: a set of literals, all of which have to be true. Both literals of a variable may stand
/// in it. Contracts see it as its literals in strictly ascending order.
#[derive(Debug, Drop)]
pub struct Cube {
    lits: Vec<Lit>,
}

impl Model for Cube {
    ghost use Rattle.std.specs.Prelude.{ℕ, List};
    ghost use Rattle.sat_base.specs.Lit.{IsLitSet};

    ghost Value = { List ℕ };

    ghost view = { λ cube. cube.lits.items };

    ghost invariant = { λ cube. IsLitSet cube.lits.items };
}

impl Cube {
    /// The cube of exactly these literals, in any order and with any repeats.
    pub fn from_lits(alloc: Global, lits: &[Lit]) -> Result<Cube, AllocError>
        ensures members { IfOk result
            (λ cube. (lit : ℕ) → Contains cube lit ↔ Contains lits.now lit) }
    {
        let lits = set_of(alloc, lits)?;
        Ok(Cube { lits })
    }

    /// The cube of literals that are in strictly ascending order already. Takes no memory.
    pub fn of_ascending(lits: Vec<Lit>) -> Cube
        requires { IsTrue (is_ascending lits.items) }
        ensures { result ≡ lits.items }
    {
        look_at(&lits);
        Cube { lits }
    }

    /// The literals in strictly ascending order.
    pub fn lits(&self) -> &[Lit]
        ensures value { result.now ≡ self.now }
        ensures set { IsLitSet self.now }
    {
        &self.lits
    }

    /// Whether the assignment makes all of its literals true.
    pub fn is_true(&self, a: &Assign) -> bool
        ensures { result ≡ cube_true a.now self.now }
    {
        let values = a.values();
        self.lits.iter().all(|lit| lit.is_true(values))
    }

    /// The clause of exactly the negations of its literals, which is true where the cube is false.
    pub fn negated(&self, alloc: Global) -> Result<Clause, AllocError>
        ensures members { IfOk result
            (λ clause. (lit : ℕ) → Contains clause lit ↔ Contains self.now (opposite lit)) }
    {
        let lits = negations(alloc, &self.lits)?;
        Clause::from_lits(alloc, &lits)
    }

    /// The literals back, in strictly ascending order. Takes no memory.
    pub fn into_lits(self) -> Vec<Lit>
        ensures value { result.items ≡ self }
        ensures set { IsLitSet self }
    {
        self.lits
    }

    /// An equal cube.
    pub fn copy(&self, alloc: Global) -> Result<Cube, AllocError>
        ensures { IfOk result (λ cube. cube ≡ self.now) }
    {
        Ok(Cube {
            lits: self.lits.to_vec(alloc)?,
        })
    }
}

impl PartialEq for Cube {
    ghost eq = { pointwise nat_eq };

    ghost laws = { Prim.search (comparing, nat_list_eq_equiv, rules) };

    fn eq(&self, other: &Cube) -> bool {
        self.lits == other.lits
    }
}

impl Eq for Cube {
    ghost laws = { nat_list_eq_equiv };
}

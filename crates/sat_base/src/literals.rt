//! Literals.

ghost use Rattle.std.specs.Prelude.{◌≡◌};
ghost use Rattle.std.specs.Option.{SomeIff};
ghost use Rattle.sat_base.specs.Lit.{IsLit, code_of, variable, is_negative, opposite};
ghost use Rattle.sat_base.specs.Truth.{lit_true};

use crate::limits::GREATEST_VARIABLE;
use std::marker::Model;

/// A literal: a variable from 1 to 8,388,607 or its negation. Four bytes, by the code of MiniSat
/// and AIGER: 2v for the positive literal of variable v, 2v + 1 for the negative one. Literals are
/// ordered by code. Contracts see a literal as its code.
#[derive(Clone, Copy, Debug, PartialEq, Eq, PartialOrd, Ord)]
pub struct Lit {
    code: u32,
}

impl Model for Lit {
    ghost use Rattle.std.specs.Prelude.{ℕ};
    ghost use Rattle.sat_base.specs.Lit.{IsLit};

    ghost Value = { ℕ };

    ghost view = { λ lit. lit.code };

    ghost invariant = { λ lit. IsLit lit.code };

    ghost inverse = { λ code. record { code = code } };
}

impl Lit {
    /// The literal that DIMACS writes as this number: v for the variable v, -v for its negation.
    /// `None` exactly for 0 and for variables above 8,388,607.
    pub fn of(number: i32) -> Option<Lit>
        ensures { SomeIff result (IsLit (code_of number)) (code_of number) }
    {
        let variable = number.unsigned_abs();
        if variable == 0 || variable > GREATEST_VARIABLE {
            return None;
        }
        let sign = if number < 0 { 1 } else { 0 };
        Some(Lit {
            code: 2 * variable + sign,
        })
    }

    /// The literal of the same variable and the other sign.
    pub fn negated(self) -> Lit
        ensures { result ≡ opposite self }
    {
        Lit {
            code: self.code ^ 1,
        }
    }

    /// The variable, from 1 to 8,388,607.
    pub fn var(self) -> u32
        ensures value { result ≡ variable self }
        ensures lit { IsLit self }
    {
        self.code / 2
    }

    /// The number that DIMACS writes for this literal.
    pub fn number(self) -> i32
        ensures value { code_of result ≡ self }
        ensures lit { IsLit self }
    {
        let variable = (self.code / 2) as i32;
        if self.is_negative() {
            -variable
        } else {
            variable
        }
    }

    /// The code, from 2 to 16,777,215: 2v for the positive literal of variable v, 2v + 1 for the
    /// negative one. It fits as an index of an array with two places for each variable.
    pub fn code(self) -> u32
        ensures value { result ≡ self }
        ensures lit { IsLit self }
    {
        self.code
    }

    /// Whether the values, variable 1 first and false beyond the list, make it true.
    pub fn is_true(self, values: &[bool]) -> bool
        ensures { result ≡ lit_true values.now self }
    {
        let index = (self.code / 2 - 1) as usize;
        let value = values.get(index).copied().unwrap_or(false);
        if self.is_negative() { !value } else { value }
    }

    /// Whether this is the negation of its variable.
    pub fn is_negative(self) -> bool
        ensures { result ≡ is_negative self }
    {
        self.code % 2 == 1
    }
}
